// The log on a page device. Its power is that of the device.
ghost use Rattle.std.specs.Prelude.{◌≡◌};
ghost use Rattle.device.specs.Disk.{woken};
ghost use Rattle.wal.specs.Appends.{Appended};
ghost use Rattle.wal.specs.Slots.{LastPassing};
ghost use Rattle.page_log.specs.Pages.{EndsAtLast, Laid, page_journal, page_slots};

use crate::slots::{last_passing, page_of, record_at, with_last};
use device::{PageDevice, PowerOff};
use wal::{AppendError, Log, RecordError, room, stamp};

#[derive(Drop)]
pub struct PageLog<D: PageDevice> {
    device: D,
    // a length beside, since the device is as large as it is
    used: u32,
    // what the last append wrote: where power fails in an append, only a look at its page can tell whether it was added
    last: [u8; 128],
    // the row ends at the last slot that passes
    pub ghost ends: { EndsAtLast (D.PageDevice.disk device) used last },
}

impl<D: PageDevice> PageLog<D> {
    // Wakes the device, which has to be on to be looked at.
    pub fn new(mut device: D) -> PageLog<D>
        ensures device { D.PageDevice.disk result.device ≡ woken (D.PageDevice.disk device) }
        ensures ends { LastPassing (page_slots (D.PageDevice.disk device)) result.used }
    {
        device.wake();
        let used = last_passing(&mut device);
        PageLog {
            device,
            used,
            last: [0; 128],
        }
    }
}

impl<D: PageDevice> Log for PageLog<D> {
    ghost journal = { λ l. page_journal (D.PageDevice.disk l.device) l.used l.last };

    #[tactic(auto, using(crate::proofs::Pages::journal_fits))]
    fn capacity(&self) -> u32 {
        room(self.device.count())
    }

    fn powered(&self) -> bool {
        self.device.powered()
    }

    fn len(&mut self) -> Result<u32, PowerOff> {
        if !self.device.powered() {
            return Err(PowerOff);
        }
        Ok(self.used)
    }

    fn read(&mut self, position: u32) -> Result<[u8; 128], RecordError> {
        if !self.device.powered() {
            return Err(RecordError::Off);
        }
        if position == 0 || position > self.used {
            return Err(RecordError::Lost);
        }
        record_at(&mut self.device, position)
    }

    fn append(&mut self, bytes: &[u8; 128]) -> Result<u32, AppendError>
        ensures appended { Appended (page_journal (D.PageDevice.disk self.old.device) self.old.used self.old.last) bytes.now result (page_journal (D.PageDevice.disk self.new.device) self.new.used self.new.last) }
        ensures laid { Laid (D.PageDevice.disk self.old.device) self.old.used bytes.now (D.PageDevice.disk self.new.device) }
    {
        if !self.device.powered() {
            return Err(AppendError::Off);
        }
        if self.used >= self.capacity() {
            return Err(AppendError::Full);
        }
        let position = self.used + 1;
        self.last = stamp(position, bytes);
        self.device.write(self.used, &page_of(&self.last))?;
        self.used = position;
        Ok(position)
    }

    fn wake(&mut self) {
        if self.device.powered() {
            return;
        }
        self.device.wake();
        self.used = with_last(&mut self.device, self.used, &self.last);
    }
}
