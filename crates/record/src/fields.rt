// The nine fields of a record's image, used by its kind or not.
use field::{Key, Value};

#[derive(Clone, Copy)]
pub(crate) struct Fields {
    pub(crate) position: u32,
    // a number, as the image has it, until it is known to be a kind's
    pub(crate) kind: u8,
    pub(crate) page: u32,
    pub(crate) previous: u32,
    pub(crate) other: u32,
    pub(crate) other_previous: u32,
    pub(crate) child: u32,
    pub(crate) key: Key,
    pub(crate) value: Value,
}
