// Fields of fixed layouts: little-endian numbers, and short byte strings behind a length byte.
#![tactic(auto)]

mod equal;
mod held;
mod parts;
mod reads;
mod strings;

pub use held::{Key, Text, Value};
pub use parts::{put, put_before, put_pair};
pub use reads::{are_zeros, field_at, half_at, is_key_field, word_at};
pub use strings::TooLong;
