// A page whose header passed, and its fences as parts of its image.
ghost use Rattle.std.specs.Prelude.{◌≡◌, true, length, IfSome, is_some};
ghost use Rattle.order.specs.Fences.{lent};
ghost use Rattle.page.specs.Content.{upper};
ghost use Rattle.page.specs.Image.{parse_page};
ghost use Rattle.page.specs.Walk.{is_header};

use crate::header::is_header;
use crate::layout::{FOSTER_CHILD, FOSTER_KEY, HIGH, LOW};
use field::{field_at, word_at};

// The image of a page whose header passed: the fields in it are whole, and its slots and its heap lie apart.
#[derive(Clone, Copy)]
pub struct Headed<'a> {
    pub(crate) image: &'a [u8; 512],
    ghost passed: { is_header image.now ≡ true },
    // as its type says, for the proofs of what reads in it
    ghost size: { length image.now ≡ 512 },
}

impl<'a> Headed<'a> {
    pub fn new(image: &'a [u8; 512]) -> Option<Headed<'a>>
        ensures made { is_some result ≡ is_header image.now }
        ensures kept { IfSome result (λ h. h.image.now ≡ image.now) }
    {
        // no `then_some`: it would be made before the test
        if is_header(image) {
            Some(Headed { image })
        } else {
            None
        }
    }

    // The same where the header is known to pass.
    pub fn of(image: &'a [u8; 512]) -> Headed<'a>
        requires { is_header image.now ≡ true }
        ensures { result.image.now ≡ image.now }
    {
        Headed { image }
    }

    pub fn low(&self) -> &'a [u8]
        ensures { result.now ≡ (parse_page self.now.image.now).low }
    {
        let b = self.image;
        field_at(b, LOW)
    }

    // `None` is above every key.
    pub fn high(&self) -> Option<&'a [u8]>
        ensures { lent result ≡ (parse_page self.now.image.now).high }
    {
        let b = self.image;
        // no `then`: its closure would have to ask for the field's room
        if b[HIGH] == 255 {
            None
        } else {
            Some(field_at(b, HIGH))
        }
    }

    // The foster key, or without foster child the high fence.
    pub fn upper(&self) -> Option<&'a [u8]>
        ensures { lent result ≡ upper (parse_page self.now.image.now) }
    {
        let b = self.image;
        if word_at(b, FOSTER_CHILD) == 0 {
            self.high()
        } else {
            Some(field_at(b, FOSTER_KEY))
        }
    }
}
