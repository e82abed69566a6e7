// A device over another whose power fails once, in a scripted write.
ghost use Rattle.std.specs.Prelude.{true, IfSome};
ghost use Rattle.door_tests.specs.Cut.{cut_disk, Leaves};

use device::{PageDevice, PowerOff, ReadError};
use seal::is_sealed;

// What the cut write leaves.
#[derive(Clone, Copy)]
pub enum Cut {
    Old,
    New,
    Torn,
}

#[derive(Drop)]
pub struct Failing<D> {
    inner: D,
    on: bool,
    // how many writes finish before the cut, if it is still to come
    left: Option<u32>,
    cut: Cut,
}

impl<D: PageDevice> Failing<D> {
    pub fn new(inner: D, left: Option<u32>, cut: Cut) -> Failing<D> {
        Failing {
            inner,
            on: true,
            left,
            cut,
        }
    }
}

// The front half of the bytes, and zeros.
fn half(bytes: &[u8; 512]) -> [u8; 512] {
    let mut torn = *bytes;
    torn[256..].fill(0);
    torn
}

// What a cut write is to put in place of the page, if anything. Bytes whose front half happens to be sealed can't be torn so.
fn image_left(cut: Cut, bytes: &[u8; 512]) -> Option<[u8; 512]>
    ensures { IfSome result (λ image. Leaves bytes.now image) }
{
    match cut {
        Cut::Old => None,
        Cut::New => Some(*bytes),
        Cut::Torn => {
            let torn = half(bytes);
            if is_sealed(&torn) { None } else { Some(torn) }
        }
    }
}

impl<D: PageDevice> PageDevice for Failing<D> {
    ghost disk = { λ f. cut_disk f.on (D.PageDevice.disk f.inner) };

    fn count(&self) -> usize {
        self.inner.count()
    }

    fn powered(&self) -> bool {
        self.on && self.inner.powered()
    }

    fn read(&mut self, page: u32) -> Result<[u8; 512], ReadError> {
        if !self.on {
            return Err(ReadError::Off);
        }
        self.inner.read(page)
    }

    fn write(&mut self, page: u32, bytes: &[u8; 512]) -> Result<(), PowerOff> {
        if !self.powered() {
            return Err(PowerOff);
        }
        if page as usize >= self.count() {
            return Ok(());
        }
        if self.left != Some(0) {
            self.left = self.left.map(|writes| writes.saturating_sub(1));
            return self.inner.write(page, bytes);
        }
        self.on = false;
        self.left = None;
        if let Some(image) = image_left(self.cut, bytes) {
            let _ = self.inner.write(page, &image);
        }
        Err(PowerOff)
    }

    fn wake(&mut self) {
        self.on = true;
        self.inner.wake();
    }
}
