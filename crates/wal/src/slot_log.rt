// A log in slots of 128 bytes of lent memory. It never goes off.
ghost use Rattle.std.specs.Prelude.{◌≡◌, ◌+◌, ◌-◌, ◌*◌, ◌<◌, ◌≤◌, length, take, drop, if◌then◌else◌, nat_le, slice_set};
ghost use Rattle.wal.specs.Appends.{Appended};
ghost use Rattle.wal.specs.Journal.{entry, reading};
ghost use Rattle.wal.specs.Records.{stamped};
ghost use Rattle.wal.specs.Slots.{LastPassing, memory_journal, memory_room, memory_slots, with_slot};

use crate::records::{passes, record_in, room, stamp};
use crate::{AppendError, Log, RecordError};
use device::PowerOff;

// How many slots the memory has.
fn room_in(memory: &[u8]) -> u32
    ensures { result ≡ memory_room memory.now }
{
    room(memory.len() / 128)
}

// Positions are numbers from 1 on, as in records and on pages; a type for that would be taken apart here again.
fn slot(memory: &[u8], position: u32) -> &[u8]
    requires from_one { 0 < position }
    requires within { position ≤ memory_room memory.now }
    ensures value { result.now ≡ take 128 (drop ((position - 1) * 128) memory.now) }
    ensures whole { length result.now ≡ 128 }
{
    let start = (position - 1) as usize * 128;
    &memory[start..start + 128]
}

// The scan of a device's slots stands beside those; each reads slots of its own kind.
fn last_passing(memory: &[u8]) -> u32
    ensures { LastPassing (memory_slots memory.now) result }
{
    for position in (1..=room_in(memory)).rev() {
        if passes(position, slot(memory, position)) {
            return position;
        }
    }
    0
}

// Stamps a record into the slot of a position.
fn put(memory: &mut [u8], position: u32, bytes: &[u8; 128])
    requires from_one { 0 < position }
    requires within { position ≤ memory_room memory.old }
    ensures memory { memory.new ≡ with_slot position (stamped position bytes.now) memory.old }
    ensures room { memory_room memory.new ≡ memory_room memory.old }
    ensures slots { memory_slots memory.new ≡ slice_set (memory_slots memory.old) (position - 1) (entry (stamped position bytes.now)) }
{
    // by range: of chunks of a `&mut` slice the library does not say what the slice is in the end
    let start = (position - 1) as usize * 128;
    memory[start..start + 128].copy_from_slice(&stamp(position, bytes));
}

#[derive(Drop)]
pub struct SlotLog<'a> {
    memory: &'a mut [u8],
    // a length beside, since the memory is lent, and as large as it is
    used: u32,
    // the row ends at the last slot that passes
    pub ghost ends: { LastPassing (memory_slots memory.now) used },
}

impl<'a> SlotLog<'a> {
    // The row that the memory holds.
    pub fn new(memory: &'a mut [u8]) -> SlotLog<'a>
        ensures value { result.memory.now ≡ memory.old }
        ensures lent { result.memory.ghost_name ≡ memory.entry.ghost_name }
        ensures ends { LastPassing (memory_slots memory.old) result.used }
    {
        let used = last_passing(memory);
        SlotLog { memory, used }
    }

    fn look(&self, position: u32) -> Result<[u8; 128], RecordError>
        ensures { result ≡ reading (memory_journal self.now.memory.now self.now.used) position }
    {
        if position == 0 || position > self.used {
            return Err(RecordError::Lost);
        }
        record_in(slot(self.memory, position), position)
    }
}

impl<'a> Log for SlotLog<'a> {
    ghost journal = { λ l. memory_journal l.memory.now l.used };

    #[tactic(auto, using(crate::proofs::Memories::memory_length))]
    fn capacity(&self) -> u32 {
        room_in(self.memory)
    }

    fn powered(&self) -> bool {
        true
    }

    fn len(&mut self) -> Result<u32, PowerOff> {
        Ok(self.used)
    }

    fn read(&mut self, position: u32) -> Result<[u8; 128], RecordError> {
        self.look(position)
    }

    fn append(&mut self, bytes: &[u8; 128]) -> Result<u32, AppendError>
        ensures appended { Appended (memory_journal self.old.memory.now self.old.used) bytes.now result (memory_journal self.new.memory.now self.new.used) }
        ensures memory { self.new.memory.now ≡ (if nat_le (memory_room self.old.memory.now) self.old.used then self.old.memory.now else with_slot (self.old.used + 1) (stamped (self.old.used + 1) bytes.now) self.old.memory.now) }
        ensures lent { self.new.memory.ghost_name ≡ self.old.memory.ghost_name }
    {
        if self.used >= self.capacity() {
            return Err(AppendError::Full);
        }
        let position = self.used + 1;
        put(self.memory, position, bytes);
        self.used = position;
        Ok(position)
    }

    fn wake(&mut self) {}
}
