// A card: the whole 512-byte parts of lent bytes. It never goes off.
ghost use Rattle.std.specs.Prelude.{◌≡◌};
ghost use Rattle.device.specs.Card.{card_disk};
ghost use Rattle.device.specs.Disk.{reading};
ghost use Rattle.device.specs.Writes.{Wrote};

use crate::{PageDevice, PowerOff, ReadError};

#[derive(Drop)]
pub struct Card<'a> {
    bytes: &'a mut [u8],
}

impl<'a> Card<'a> {
    pub fn new(bytes: &'a mut [u8]) -> Card<'a>
        ensures value { result.bytes.now ≡ bytes.old }
        ensures lent { result.bytes.ghost_name ≡ bytes.entry.ghost_name }
    {
        Card { bytes }
    }

    fn look(&self, page: u32) -> Result<[u8; 512], ReadError>
        ensures { result ≡ reading (card_disk self.now.bytes.now) page }
    {
        let (pages, _) = self.bytes.as_chunks::<512>();
        pages
            .get(page as usize)
            .copied()
            .ok_or(ReadError::Unreadable)
    }
}

impl<'a> PageDevice for Card<'a> {
    ghost disk = { λ card. card_disk card.bytes.now };

    #[tactic(auto, using(crate::proofs::Cards::card_count))]
    fn count(&self) -> usize {
        self.bytes.len() / 512
    }

    fn powered(&self) -> bool {
        true
    }

    // `lent`, here and below: the card still refers to the bytes that it was lent.
    fn read(&mut self, page: u32) -> Result<[u8; 512], ReadError>
        ensures value { result ≡ reading (card_disk self.old.bytes.now) page }
        ensures same { card_disk self.new.bytes.now ≡ card_disk self.old.bytes.now }
        ensures lent { self.new.bytes.ghost_name ≡ self.old.bytes.ghost_name }
    {
        self.look(page)
    }

    fn write(&mut self, page: u32, bytes: &[u8; 512]) -> Result<(), PowerOff>
        ensures wrote { Wrote (card_disk self.old.bytes.now) page bytes.now result (card_disk self.new.bytes.now) }
        ensures lent { self.new.bytes.ghost_name ≡ self.old.bytes.ghost_name }
    {
        let page = page as usize;
        if page < self.bytes.len() / 512 {
            // by range: of chunks of a `&mut` slice the library does not say what the slice is in the end
            let start = page * 512;
            self.bytes[start..start + 512].copy_from_slice(bytes);
        }
        Ok(())
    }

    fn wake(&mut self) {}
}
