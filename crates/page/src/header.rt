// The header of a page, the room of its slots, and the gap behind them.
ghost use Rattle.std.specs.Prelude.{◌≡◌, length};
ghost use Rattle.page.specs.Walk.{are_fields, are_fillers, has_room, is_bound_field, is_foster_at, is_header};

use crate::layout::{
    COUNT, FOSTER_CHILD, FOSTER_KEY, HEAP_END, HEAP_START, HIGH, LEVEL, LOW, NUMBER, SLOTS,
};
use field::{are_zeros, half_at, is_key_field, word_at};

pub(crate) fn is_header(b: &[u8; 512]) -> bool
    ensures { result ≡ is_header b.now }
{
    are_fillers(b) & (are_fields(b) & (is_foster(b) & has_room(b)))
}

fn are_fillers(b: &[u8; 512]) -> bool
    ensures { result ≡ are_fillers b.now }
{
    (b[9] == 0) & ((b[18] == 0) & ((b[19] == 0) & (b[71] == 0)))
}

fn are_fields(b: &[u8; 512]) -> bool
    ensures { result ≡ are_fields b.now }
{
    is_key_field(&b[LOW..HIGH])
        & (is_bound_field(&b[HIGH..FOSTER_KEY]) & is_key_field(&b[FOSTER_KEY..SLOTS - 1]))
}

// A key field, or the sign that there is no bound.
fn is_bound_field(f: &[u8]) -> bool
    requires { length f.now ≡ 17 }
    ensures { result ≡ is_bound_field f.now }
{
    if f[0] == 255 {
        are_zeros(&f[1..])
    } else {
        is_key_field(f)
    }
}

fn is_foster(b: &[u8; 512]) -> bool
    ensures { result ≡ is_foster_at b.now }
{
    let child = word_at(b, FOSTER_CHILD);
    if child == 0 {
        b[FOSTER_KEY] == 0
    } else {
        child != word_at(b, NUMBER)
    }
}

fn has_room(b: &[u8; 512]) -> bool
    ensures { result ≡ has_room b.now }
{
    let count = half_at(b, COUNT);
    let slots_end = SLOTS + 2 * count;
    let start = half_at(b, HEAP_START);
    if slots_end > start {
        return false;
    }
    if start > HEAP_END {
        return false;
    }
    !((count == 0) & (b[LEVEL] != 0)) & are_zeros(&b[slots_end..start])
}
