// Orders of keys, and what rests on their laws alone: finding a key in a row, and fences.
#![tactic(auto)]

mod byte_order;
mod facts;
mod fence;
mod key_order;
mod length_first;
mod row;
mod slots;

pub use byte_order::ByteOrder;
pub use facts::{both_orders_are_lawful, every_order_is_lawful, orders_differ};
pub use fence::{below, holds};
pub use key_order::{KeyOrder, MAX_KEY};
pub use length_first::LengthFirst;
pub use row::{KeyRow, LentKeys};
pub use slots::{ascends, find, floor};
