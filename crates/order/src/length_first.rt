ghost use Rattle.order.specs.Orders.{by_length};
ghost use Rattle.order.specs.Laws.{length_lawful};

use crate::byte_order::by_byte;
use crate::key_order::KeyOrder;
use std::cmp::Ordering;

// The shorter is less, and byte order decides between keys of one length.
#[derive(Clone, Copy)]
pub struct LengthFirst;

impl KeyOrder for LengthFirst {
    ghost says = { by_length };

    ghost lawful = { length_lawful };

    fn compare(&self, a: &[u8], b: &[u8]) -> Ordering {
        a.len().cmp(&b.len()).then_with(|| by_byte(a, b))
    }
}
