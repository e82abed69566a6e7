// The image of a record at a position, and the record of an image.
ghost use Rattle.std.specs.Prelude.{◌≡◌, Some};
ghost use Rattle.record.specs.Contents.{decode_at, decode_record, encode_record, measured};
ghost use Rattle.record.specs.Model.{answered, content_of, content_option};
ghost use Rattle.std.specs.Str.{bytes_eq};

use crate::content::Record;
use crate::fields::Fields;

// Whether the length bytes leave key and value within their fields.
fn is_measured(b: &[u8; 128]) -> bool
    ensures { result ≡ measured b.now }
{
    b[25] <= 16 && b[42] <= 64
}

impl Record {
    // It reads back, since what a record holds fits the fields.
    fn image(&self, position: u32) -> [u8; 128]
        ensures image { result ≡ encode_record position (content_of self.now) }
        ensures reads_back { decode_record result ≡ Some (position, content_of self.now) }
    {
        Fields::of(position, self).to_bytes()
    }

    pub fn to_bytes(&self, position: u32) -> [u8; 128]
        ensures image { result ≡ encode_record position (content_of self.now) }
        ensures reads_back { decode_record result ≡ Some (position, content_of self.now) }
    {
        self.image(position)
    }

    fn has_image(&self, position: u32, b: &[u8; 128]) -> bool
        ensures { result ≡ bytes_eq (encode_record position (content_of self.now)) b.now }
    {
        self.to_bytes(position) == *b
    }

    // The position and the record whose one image these bytes are.
    pub fn from_bytes(b: &[u8; 128]) -> Option<(u32, Record)>
        ensures { answered result ≡ decode_record b.now }
    {
        if !is_measured(b) {
            return None;
        }
        let fields = Fields::from_bytes(b);
        let content = fields.content()?;
        let is_its_image = content.has_image(fields.position, b);
        is_its_image.then_some((fields.position, content))
    }

    // The record of an image that holds this position.
    pub fn from_bytes_at(position: u32, b: &[u8; 128]) -> Option<Record>
        ensures { content_option result ≡ decode_at position b.now }
    {
        let (held, content) = Record::from_bytes(b)?;
        (held == position).then_some(content)
    }
}
