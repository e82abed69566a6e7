// Pages of 512 bytes: what they hold, and whether bytes are one, checked in place.
#![tactic(auto)]

mod checked;
mod entry;
mod facts;
mod headed;
mod header;
pub mod layout;

pub use checked::check;
pub use facts::{
    decoding_an_image_gives_its_content, keys_ascend_between_the_fences,
    one_way_through_the_bytes_decides, what_decodes_is_an_image,
};
pub use headed::Headed;
