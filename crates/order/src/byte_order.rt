ghost use Rattle.std.specs.Prelude.{◌≡◌, length};
ghost use Rattle.order.specs.Orders.{by_byte};
ghost use Rattle.order.specs.Wide.{wide};
ghost use Rattle.order.specs.Laws.{byte_lawful};

use crate::key_order::KeyOrder;
use std::cmp::Ordering;

// The first differing byte decides, and a prefix is less.
#[derive(Clone, Copy)]
pub struct ByteOrder;

impl KeyOrder for ByteOrder {
    ghost says = { by_byte };

    ghost lawful = { byte_lawful };

    fn compare(&self, a: &[u8], b: &[u8]) -> Ordering {
        by_byte(a, b)
    }
}

// Eight bytes at a time, since keys are often alike at the front; fewer by the library's order. The first eight mostly decide, and
// are compared in place.
#[inline]
#[cycle(eights)]
pub(crate) fn by_byte(a: &[u8], b: &[u8]) -> Ordering
    ensures { result ≡ by_byte a.now b.now }
{
    let (Some((p, x)), Some((q, y))) = (a.split_first_chunk::<8>(), b.split_first_chunk::<8>())
    else {
        return a.cmp(&b);
    };
    match by_eight(p, q) {
        Ordering::Equal => by_rest(x, y),
        unlike => unlike,
    }
}

// What is behind them, by a call.
#[cycle(eights)]
fn by_rest(x: &[u8], y: &[u8]) -> Ordering
    ensures { result ≡ by_byte x.now y.now }
{
    by_byte(x, y)
}

fn by_eight(p: &[u8; 8], q: &[u8; 8]) -> Ordering
    ensures is { result ≡ by_byte p.now q.now }
    ensures alike { length p.now ≡ length q.now }
{
    number(p).cmp(&number(q))
}

fn number(p: &[u8; 8]) -> u64
    ensures { result ≡ wide p.now }
{
    u64::from_be_bytes(*p)
}
