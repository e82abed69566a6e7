// Keys and values made of bytes, and their bytes again.
ghost use Rattle.std.specs.Prelude.{◌≡◌, ◌-◌, ◌<◌, ◌≤◌, Decides, MatchResult, length, min};
ghost use Rattle.field.specs.Fields.{field, prefixed};
ghost use Rattle.field.specs.Held.{text_of};

use crate::held::Text;
use crate::parts::put;
use crate::reads::field_at;

impl<const SIZE: usize> Text<SIZE> {
    pub fn new(s: &[u8]) -> Text<SIZE>
        requires { length s.now < min SIZE 256 }
        ensures { text_of result ≡ s.now }
    {
        let mut image = [0; SIZE];
        image[0] = s.len() as u8;
        put(&mut image, 1, s);
        Text { image }
    }

    pub fn bytes(&self) -> &[u8]
        ensures { result.now ≡ text_of self.now }
    {
        field_at(&self.image, 0)
    }

    // The length byte, and the bytes padded with zeros.
    pub fn padded(&self) -> &[u8; SIZE]
        ensures { result.now ≡ field (SIZE - 1) (text_of self.now) }
    {
        &self.image
    }

    // The length byte and the bytes.
    pub fn prefixed(&self) -> &[u8]
        ensures { result.now ≡ prefixed (text_of self.now) }
    {
        let image = &self.image[..];
        &image[..1 + usize::from(image[0])]
    }

    // Texts are equal if their bytes are.
    pub fn holds_same(&self, other: &Text<SIZE>) -> bool
        ensures { Decides result (text_of self.now ≡ text_of other.now) }
    {
        self == other
    }
}

/// Bytes that are too many for a text of their kind.
#[derive(Clone, Copy, Debug, PartialEq, Eq)]
pub struct TooLong;

impl<const SIZE: usize> TryFrom<&[u8]> for Text<SIZE> {
    type Error = TooLong;

    ghost try_from_gives = { λ s r. MatchResult r (λ t. (text_of t ≡ s.now) × (length s.now < min SIZE 256)) (λ _. min SIZE 256 ≤ length s.now) };

    fn try_from(s: &[u8]) -> Result<Text<SIZE>, TooLong> {
        if s.len() < SIZE.min(256) {
            Ok(Text::new(s))
        } else {
            Err(TooLong)
        }
    }
}
