// The 72 bytes above a page's slots.
ghost use Rattle.std.specs.Prelude.{◌≡◌, ◌<◌, List, []};
ghost use Rattle.page.specs.Content.{Entry, foster_child, foster_key};
ghost use Rattle.page.specs.Image.{bound_field};
ghost use Rattle.field.specs.Fields.{field};
ghost use Rattle.field.specs.Held.{key_of};
ghost use Rattle.page_build.specs.Told.{bound_of, foster_of, head_of};

use crate::header::{Foster, Header};
use field::{Key, put};

// The field of no bound: a length that no key has.
const NO_BOUND: [u8; 17] = [255, 0, 0, 0, 0, 0, 0, 0, 0, 0, 0, 0, 0, 0, 0, 0, 0];

fn bound_field(bound: &Option<Key>) -> &[u8; 17]
    ensures { result.now ≡ bound_field (bound_of bound.now) }
{
    bound.as_ref().map_or(&NO_BOUND, Key::padded)
}

fn foster_field(foster: &Option<Foster>) -> &[u8; 17]
    ensures { result.now ≡ field 16 (foster_key (foster_of foster.now)) }
{
    foster.as_ref().map_or(&[0; 17], |f| f.key.padded())
}

fn foster_child(foster: Option<Foster>) -> u32
    ensures { result ≡ foster_child (foster_of foster) }
{
    foster.map_or(0, |f| f.child)
}

// Written in the order of the layout, fillers too, so that each part ends where the next begins.
pub(crate) fn head(h: &Header, count: u16, start: u16) -> [u8; 72]
    ensures { result ≡ head_of h.now count start }
{
    let mut out = [0; 72];
    put(&mut out, 0, &h.number.to_le_bytes());
    put(&mut out, 4, &h.lsn.to_le_bytes());
    put(&mut out, 8, &[h.level, 0]);
    put(&mut out, 10, &count.to_le_bytes());
    put(&mut out, 12, &foster_child(h.foster).to_le_bytes());
    put(&mut out, 16, &start.to_le_bytes());
    put(&mut out, 18, &[0, 0]);
    put(&mut out, 20, h.low.padded());
    put(&mut out, 37, bound_field(&h.high));
    put(&mut out, 54, foster_field(&h.foster));
    put(&mut out, 71, &[0]);
    out
}
