// Byte strings of a greatest length, each held as its field, so that equal strings are equal values.
ghost use Rattle.std.specs.Prelude.{◌≡◌, ◌-◌, ◌<◌, slice_index};
ghost use Rattle.field.specs.Fields.{field, field_at};

/// A string of fewer than `SIZE` bytes, in a field of `SIZE`.
#[derive(Clone, Copy)]
pub struct Text<const SIZE: usize> {
    pub(crate) image: [u8; SIZE],
    ghost fits: { slice_index image 0 < SIZE },
    ghost padded: { image ≡ field (SIZE - 1) (field_at image 0) },
}

/// At most 16 bytes.
pub type Key = Text<17>;

/// At most 64 bytes.
pub type Value = Text<65>;
