// A mirror of two devices. The second is written first, and the first only then, so that a cut write tears one of them at most.
ghost use Rattle.std.specs.Prelude.{◌≡◌};
ghost use Rattle.device.specs.Mirror.{InOrder, mirrored};
ghost use Rattle.device.specs.Writes.{Wrote};

use crate::{PageDevice, PowerOff, ReadError, gives_sealed};

#[derive(Drop)]
pub struct Mirror<F, S> {
    first: F,
    second: S,
}

impl<F: PageDevice, S: PageDevice> Mirror<F, S> {
    pub fn new(first: F, second: S) -> Mirror<F, S>
        ensures first { result.first ≡ first }
        ensures second { result.second ≡ second }
    {
        Mirror { first, second }
    }
}

impl<F: PageDevice, S: PageDevice> PageDevice for Mirror<F, S> {
    ghost disk = { λ m. mirrored (F.PageDevice.disk m.first) (S.PageDevice.disk m.second) };

    #[tactic(auto, using(crate::proofs::Mirrors::length_paired))]
    fn count(&self) -> usize {
        self.first.count().min(self.second.count())
    }

    fn powered(&self) -> bool {
        self.first.powered() && self.second.powered()
    }

    fn read(&mut self, page: u32) -> Result<[u8; 512], ReadError> {
        if !self.powered() {
            return Err(ReadError::Off);
        }
        if page as usize >= self.count() {
            return Err(ReadError::Unreadable);
        }
        let first = self.first.read(page);
        if gives_sealed(&first) {
            return first;
        }
        self.second.read(page)
    }

    // Both powers are asked before the first write: what one side took while the other was off would show after a wake.
    fn write(&mut self, page: u32, bytes: &[u8; 512]) -> Result<(), PowerOff>
        ensures wrote { Wrote (mirrored (F.PageDevice.disk self.old.first) (S.PageDevice.disk self.old.second)) page bytes.now result (mirrored (F.PageDevice.disk self.new.first) (S.PageDevice.disk self.new.second)) }
        ensures order { InOrder (F.PageDevice.disk self.old.first) (S.PageDevice.disk self.old.second) page bytes.now (F.PageDevice.disk self.new.first) (S.PageDevice.disk self.new.second) }
    {
        let both_on = self.powered();
        if !both_on {
            return Err(PowerOff);
        }
        if page as usize >= self.count() {
            return Ok(());
        }
        self.second.write(page, bytes)?;
        self.first.write(page, bytes)
    }

    fn wake(&mut self) {
        self.first.wake();
        self.second.wake();
    }
}
