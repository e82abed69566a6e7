// What stands above a page's entries.
ghost use Rattle.std.specs.Prelude.{◌≡◌, ◌<◌, true, length};
ghost use Rattle.order.specs.Fences.{lent};
ghost use Rattle.page.specs.Content.{upper};
ghost use Rattle.page.specs.Form.{is_laid};
ghost use Rattle.page.specs.Image.{parse_page};
ghost use Rattle.seal.specs.Laws.{Bytes};
ghost use Rattle.page_view.specs.Lent.{foster_lent};

use crate::view::{FosterView, PageView};
use field::{field_at, half_at, word_at};
use page::Headed;
use page::layout::{COUNT, FOSTER_CHILD, FOSTER_KEY, LEVEL, LSN, NUMBER};

// A proof learns from a slice what it does not from an array.
fn are_bytes(b: &[u8])
    ensures { Bytes b.now }
{}

impl<'a> PageView<'a> {
    pub fn new(image: &'a [u8; 512]) -> PageView<'a>
        requires { is_laid image.now ≡ true }
        ensures { result.image.now ≡ image.now }
    {
        are_bytes(image);
        PageView { image }
    }

    pub fn number(&self) -> u32
        ensures { result ≡ (parse_page self.now.image.now).number }
    {
        let b = self.image;
        word_at(b, NUMBER)
    }

    pub fn lsn(&self) -> u32
        ensures { result ≡ (parse_page self.now.image.now).lsn }
    {
        let b = self.image;
        word_at(b, LSN)
    }

    // 0 is a leaf, above it are branches.
    pub fn level(&self) -> u8
        ensures { result ≡ (parse_page self.now.image.now).level }
    {
        self.image[LEVEL]
    }

    pub fn count(&self) -> usize
        ensures value { result ≡ length (parse_page self.now.image.now).entries }
        ensures few { result < 65536 }
    {
        let b = self.image;
        half_at(b, COUNT)
    }

    // its fences are read as those of any page whose header passed
    fn headed(&self) -> Headed<'a>
        ensures { result.image.now ≡ self.now.image.now }
    {
        Headed::of(self.image)
    }

    pub fn low(&self) -> &'a [u8]
        ensures { result.now ≡ (parse_page self.now.image.now).low }
    {
        self.headed().low()
    }

    // `None` is above every key.
    pub fn high(&self) -> Option<&'a [u8]>
        ensures { lent result ≡ (parse_page self.now.image.now).high }
    {
        self.headed().high()
    }

    // The foster key, or without foster child the high fence.
    pub fn upper(&self) -> Option<&'a [u8]>
        ensures { lent result ≡ upper (parse_page self.now.image.now) }
    {
        self.headed().upper()
    }

    pub fn foster(&self) -> Option<FosterView<'a>>
        ensures { foster_lent result ≡ (parse_page self.now.image.now).foster }
    {
        let b = self.image;
        // an early return: a closure of `then` would have to ask for the room that the key's field has
        let child = word_at(b, FOSTER_CHILD);
        if child == 0 {
            return None;
        }
        Some(FosterView {
            key: field_at(b, FOSTER_KEY),
            child,
        })
    }
}
