// The fields of a record written in place; what stands before one and behind it stays.
ghost use Rattle.std.specs.Prelude.{◌≡◌, ◌+◌, ◌-◌, ◌≤◌, ◌++◌, length, take, drop};
ghost use Rattle.field.specs.Fields.{field};
ghost use Rattle.field.specs.Held.{text_of};
ghost use Rattle.seal.specs.Seal.{le4};
ghost use Rattle.record.specs.Layout.{Word};

use field::{Text, put};

pub(crate) fn put_word(out: &mut [u8], at: usize, n: u32)
    requires { at + 4 ≤ length out.old }
    ensures written { take (at + 4) out.new ≡ take at out.old ++ le4 n }
    ensures rest { drop (at + 4) out.new ≡ drop (at + 4) out.old }
    ensures fits { Word n }
{
    put(out, at, &n.to_le_bytes());
}

pub(crate) fn put_text<const SIZE: usize>(out: &mut [u8], at: usize, text: &Text<SIZE>)
    requires { at + SIZE ≤ length out.old }
    ensures written { take (at + SIZE) out.new ≡ take at out.old ++ field (SIZE - 1) (text_of text.now) }
    ensures rest { drop (at + SIZE) out.new ≡ drop (at + SIZE) out.old }
{
    put(out, at, text.padded());
}
