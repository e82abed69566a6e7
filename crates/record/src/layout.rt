// The image of the fields, and the fields of an image.
ghost use Rattle.std.specs.Prelude.{◌≡◌, ◌≤◌, slice_index};
ghost use Rattle.record.specs.Layout.{FieldsFit, encode, parse};
ghost use Rattle.record.specs.Model.{fields_of};

use crate::fields::Fields;
use crate::puts::{put_text, put_word};
use field::{Key, Value, field_at, put, word_at};
use seal::seal_array;

impl Fields {
    pub(crate) fn to_bytes(&self) -> [u8; 128]
        ensures image { result ≡ encode (fields_of self.now) }
        ensures fits { FieldsFit (fields_of self.now) }
    {
        let mut out = [0; 128];
        put_word(&mut out, 0, self.position);
        put_word(&mut out, 4, self.page);
        put_word(&mut out, 8, self.previous);
        put_word(&mut out, 12, self.other);
        put_word(&mut out, 16, self.other_previous);
        put_word(&mut out, 20, self.child);
        put(&mut out, 24, &[self.kind]);
        put_text(&mut out, 25, &self.key);
        put_text(&mut out, 42, &self.value);
        seal_array(&mut out);
        out
    }

    // What stands in the fields, whether or not the rest of the image is as it should be.
    #[tactic(auto, using(crate::proofs::Images::string_fits), unfolding(crate::specs::Layout::parse))]
    pub(crate) fn from_bytes(b: &[u8; 128]) -> Fields
        requires key { slice_index b.now 25 ≤ 16 }
        requires value { slice_index b.now 42 ≤ 64 }
        ensures { fields_of result ≡ parse b.now }
    {
        Fields {
            position: word_at(b, 0),
            page: word_at(b, 4),
            previous: word_at(b, 8),
            other: word_at(b, 12),
            other_previous: word_at(b, 16),
            child: word_at(b, 20),
            kind: b[24],
            key: Key::new(field_at(b, 25)),
            value: Value::new(field_at(b, 42)),
        }
    }
}
