// One entry of a page, in place.
ghost use Rattle.std.specs.Prelude.{◌≡◌, ◌<◌, ◌≤◌, length};
ghost use Rattle.page.specs.Walk.{ends_at, is_next};

use crate::layout::MAX_VALUE;
use field::word_at;
use order::{KeyOrder, MAX_KEY};
use std::cmp::Ordering;

pub(crate) fn ends_at(b: &[u8], own: u32, level: u8, at: usize, end: usize) -> bool
    requires size { length b.now ≡ 512 }
    requires place { at < 65536 }
    requires within { end ≤ 508 }
    ensures { result ≡ ends_at b.now own level at end }
{
    if at + 2 > end {
        return false;
    }
    let n = usize::from(b[at]);
    let second = at + 1 + n;
    if second >= end {
        return false;
    }
    if level == 0 {
        let m = usize::from(b[second]);
        (second + 1 + m == end) & (n >= 1) & (n <= MAX_KEY) & (m <= MAX_VALUE)
    } else if second + 4 == end {
        let child = word_at(b, second);
        (n <= MAX_KEY) & (child != 0) & (child != own)
    } else {
        false
    }
}

// A key may follow the one before it, or as the first the low fence. Neither lies in a page that is known to be one yet.
pub(crate) fn is_next<O: KeyOrder>(
    order: &O,
    first: bool,
    level: u8,
    previous: &[u8],
    key: &[u8],
) -> bool
    ensures { result ≡ is_next first level (O.KeyOrder.says previous.now key.now) }
{
    match order.compare(previous, key) {
        Ordering::Less => !first || level == 0,
        Ordering::Equal => first,
        Ordering::Greater => false,
    }
}
