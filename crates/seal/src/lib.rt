// CRC32C, and blocks that end in the seal of the bytes before it.
#![tactic(auto)]

mod block;
mod checksum;
mod laws;
mod tables;

pub use block::{SealError, is_sealed, seal_array, seal_block};
pub use checksum::crc32c;
pub use laws::{check_value, check_value_is_e3069283, sealed_blocks_pass_and_no_others};
