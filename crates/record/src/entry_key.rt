// The key of an entry: a key has at least one byte, where a fence may have none.
ghost use Rattle.std.specs.Prelude.{◌≤◌, length};
ghost use Rattle.field.specs.Held.{key_of};

use field::Key;

#[derive(Clone, Copy, PartialEq, Eq)]
pub struct EntryKey {
    pub key: Key,
    ghost some: { 1 ≤ length (key_of key) },
}
