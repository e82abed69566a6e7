// The log record: what it says, and its image of 128 bytes.
#![tactic(auto)]

mod by_kind;
mod changes;
mod codec;
mod content;
mod entry_key;
mod fields;
mod keys;
mod kinds;
mod laws;
mod layout;
mod puts;

pub use content::{Change, Record};
pub use entry_key::EntryKey;
pub use keys::NoEntryKey;
pub use kinds::{Kind, UnknownKind};
pub use laws::{
    content_has_one_image_that_reads_back, decoded_content_fits, image_is_a_sealed_block,
};
