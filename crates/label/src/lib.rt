// Label sizes, and the memory that a printer claims for one.
#![tactic(auto)]

ghost use Rattle.std.specs.Prelude.{◌≡◌, Some};
ghost use Rattle.label.specs.Bitmap.{SizesInUse, bitmap_bytes, line, size_text};

use std::fmt;

// Millimetres.
#[derive(Clone, Copy, PartialEq, Eq, Debug)]
pub struct LabelSize {
    pub width: u16,
    pub height: u16,
}

impl LabelSize {
    // Bytes of the bitmap at eight dots to the millimetre, for any size at all.
    pub fn bitmap_bytes(self) -> u64
        ensures { result ≡ bitmap_bytes self.width self.height }
    {
        8 * u64::from(self.width) * u64::from(self.height)
    }

    // A line of the label table: width, height, bitmap bytes.
    pub fn to_line(self) -> [u8; 12]
        ensures { result ≡ line self.width self.height }
    {
        let [w0, w1] = self.width.to_le_bytes();
        let [h0, h1] = self.height.to_le_bytes();
        let [b0, b1, b2, b3, b4, b5, b6, b7] = self.bitmap_bytes().to_le_bytes();
        [w0, w1, h0, h1, b0, b1, b2, b3, b4, b5, b6, b7]
    }
}

// Width and height, as a key of the label table names them.
impl fmt::Display for LabelSize {
    ghost output = { λ size. Some (size_text size.width size.height) };

    fn fmt<W: fmt::Write>(&self, f: &mut fmt::Formatter<W>) -> fmt::Result {
        let LabelSize { width, height } = *self;
        write!(f, "{width}-{height}")
    }
}

pub fn sizes_in_use()
    ensures { SizesInUse }
{}
