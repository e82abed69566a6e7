// The layout of a record, and blocks that hold one.
ghost use Rattle.std.specs.Prelude.{◌≡◌, ◌≤◌, length};
ghost use Rattle.device.specs.Disk.{holds};
ghost use Rattle.wal.specs.Journal.{shown};
ghost use Rattle.wal.specs.Records.{passes, stamped};
ghost use Rattle.wal.specs.Slots.{room, slot};

use crate::RecordError;
use field::{put, word_at};
use seal::{is_sealed, seal_array};

// How many positions so many blocks have: a position has 32 bits.
pub fn room(blocks: usize) -> u32
    ensures { result ≡ room blocks }
{
    u32::try_from(blocks).unwrap_or(u32::MAX)
}

// The record with its position and seal set.
pub fn stamp(position: u32, bytes: &[u8; 128]) -> [u8; 128]
    ensures { result ≡ stamped position bytes.now }
{
    let mut record = *bytes;
    put(&mut record, 0, &position.to_le_bytes());
    seal_array(&mut record);
    record
}

// Whether a block is sealed and carries its own position.
#[tactic(auto, unfolding(crate::specs::Records::passes))]
pub fn passes(position: u32, block: &[u8]) -> bool
    requires { 4 ≤ length block.now }
    ensures { result ≡ passes position block.now }
{
    is_sealed(block) && word_at(block, 0) == position
}

// The record at the front of a block, if the block passes.
pub fn record_in(block: &[u8], position: u32) -> Result<[u8; 128], RecordError>
    requires { 128 ≤ length block.now }
    ensures { result ≡ shown (slot position (holds block.now)) }
{
    match block.first_chunk() {
        Some(record) if passes(position, block) => Ok(*record),
        _ => Err(RecordError::Lost),
    }
}
