ghost use Rattle.std.specs.Prelude.{◌≡◌, codes};
ghost use Rattle.std.specs.declared.cmp.Ordering.TheVariants.{Less, Greater};
ghost use Rattle.order.specs.Lawful.{Lawful};
ghost use Rattle.order.specs.Orders.{by_byte, by_length};

use crate::byte_order::ByteOrder;
use crate::key_order::KeyOrder;
use crate::length_first::LengthFirst;
use std::cmp::Ordering;

// The laws of the trait say that the order is lawful.
pub fn every_order_is_lawful<O: KeyOrder>(_order: &O)
    ensures { Lawful O.KeyOrder.says }
{}

pub fn both_orders_are_lawful()
    ensures bytes { Lawful by_byte }
    ensures lengths { Lawful by_length }
{
    every_order_is_lawful(&ByteOrder);
    every_order_is_lawful(&LengthFirst);
}

// "100-50" comes before "50-30" byte by byte, and after it where the shorter comes first.
pub fn orders_differ() -> (Ordering, Ordering)
    ensures bytes { by_byte (codes "100-50") (codes "50-30") ≡ Less }
    ensures lengths { by_length (codes "100-50") (codes "50-30") ≡ Greater }
    ensures told { result ≡ (Less, Greater) }
{
    (
        ByteOrder.compare(b"100-50", b"50-30"),
        LengthFirst.compare(b"100-50", b"50-30"),
    )
}
