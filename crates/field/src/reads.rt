// Numbers, zeros and fields read in place.
ghost use Rattle.std.specs.Prelude.{◌≡◌, ◌+◌, ◌<◌, ◌≤◌, length, slice_index};
ghost use Rattle.field.specs.Fields.{are_zeros, field_at, half, is_field, word};

// The 16-bit number at a place.
#[tactic(auto, unfolding(crate::specs::Fields::half))]
pub fn half_at(b: &[u8], at: usize) -> usize
    requires { at + 2 ≤ length b.now }
    ensures value { result ≡ half b.now at }
    ensures fits { result < 65536 }
{
    usize::from(u16::from_le_bytes([b[at], b[at + 1]]))
}

// The 32-bit number at a place.
#[tactic(auto, unfolding(crate::specs::Fields::word))]
pub fn word_at(b: &[u8], at: usize) -> u32
    requires { at + 4 ≤ length b.now }
    ensures { result ≡ word b.now at }
{
    u32::from_le_bytes([b[at], b[at + 1], b[at + 2], b[at + 3]])
}

// The bytes behind a length byte.
#[tactic(auto, unfolding(crate::specs::Fields::field_at))]
pub fn field_at(b: &[u8], at: usize) -> &[u8]
    requires { at + 1 + slice_index b.now at ≤ length b.now }
    ensures { result.now ≡ field_at b.now at }
{
    &b[at + 1..at + 1 + usize::from(b[at])]
}

// The loop has no exit, so that it runs over many bytes at once.
pub fn are_zeros(s: &[u8]) -> bool
    ensures { result ≡ are_zeros s.now }
{
    let mut all = 0;
    for x in s {
        all |= *x;
    }
    all == 0
}

// Whether 17 bytes are the field of a key.
pub fn is_key_field(f: &[u8]) -> bool
    requires { length f.now ≡ 17 }
    ensures { result ≡ is_field 16 f.now }
{
    let n = usize::from(f[0]);
    n <= 16 && are_zeros(&f[1 + n..])
}
