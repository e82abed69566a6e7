// Logs: what one means, and one in slots of lent memory.
#![tactic(auto)]

ghost use Rattle.std.specs.Prelude.{◌≡◌, ◌≤◌, length};
ghost use Rattle.wal.specs.Appends.{Appended};
ghost use Rattle.wal.specs.Journal.{Journal, measured, reading, woken};

mod errors;
mod laws;
mod records;
mod slot_log;

use device::PowerOff;
pub use errors::{AppendError, RecordError};
pub use laws::{appends_are_placed_or_leave_power_off, new_logs_are_empty_and_no_others};
pub use records::{passes, record_in, room, stamp};
pub use slot_log::SlotLog;

pub trait Log {
    // The capacity, the row of records and the power.
    ghost journal: { Self → Journal };

    fn capacity(&self) -> u32
        ensures value { result ≡ (journal self.now).capacity }
        ensures fits { length (journal self.now).records ≤ result };

    fn powered(&self) -> bool
        ensures { result ≡ (journal self.now).on };

    // A log on a device asks the device, which may take note of that, so long as the meaning stays.
    fn len(&mut self) -> Result<u32, PowerOff>
        ensures value { result ≡ measured (journal self.old) }
        ensures same { journal self.new ≡ journal self.old };

    fn read(&mut self, position: u32) -> Result<[u8; 128], RecordError>
        ensures value { result ≡ reading (journal self.old) position }
        ensures same { journal self.new ≡ journal self.old };

    fn append(&mut self, bytes: &[u8; 128]) -> Result<u32, AppendError>
        ensures { Appended (journal self.old) bytes.now result (journal self.new) };

    fn wake(&mut self)
        ensures { journal self.new ≡ woken (journal self.old) };
}
