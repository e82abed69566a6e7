// Page devices: what one means, a card over lent bytes, and a mirror of two devices.
#![tactic(auto)]

ghost use Rattle.std.specs.Prelude.{◌≡◌, length};
ghost use Rattle.device.specs.Disk.{Disk, gives_sealed, reading, woken};
ghost use Rattle.device.specs.Writes.{Wrote};

mod card;
mod errors;
mod laws;
mod mirror;
mod repair;

pub use card::Card;
pub use errors::{PowerOff, ReadError};
pub use laws::writes_finish_or_leave_power_off;
pub use mirror::Mirror;
pub use repair::{Repair, repair_page};
use seal::is_sealed;

// Whether a page was read, and is sealed.
pub fn gives_sealed(answer: &Result<[u8; 512], ReadError>) -> bool
    ensures { result ≡ gives_sealed answer.now }
{
    matches!(answer, Ok(bytes) if is_sealed(bytes))
}

pub trait PageDevice {
    // The row of pages and the power.
    ghost disk: { Self → Disk };

    fn count(&self) -> usize
        ensures { result ≡ length (disk self.now).pages };

    fn powered(&self) -> bool
        ensures { result ≡ (disk self.now).on };

    // A device may take note of what it reads, so long as its meaning stays.
    fn read(&mut self, page: u32) -> Result<[u8; 512], ReadError>
        ensures value { result ≡ reading (disk self.old) page }
        ensures same { disk self.new ≡ disk self.old };

    fn write(&mut self, page: u32, bytes: &[u8; 512]) -> Result<(), PowerOff>
        ensures { Wrote (disk self.old) page bytes.now result (disk self.new) };

    fn wake(&mut self)
        ensures { disk self.new ≡ woken (disk self.old) };
}
