// Entry keys made of keys and of bytes, and their bytes again.
ghost use Rattle.std.specs.Prelude.{◌≡◌, ◌<◌, ◌≤◌, MatchResult, length};
ghost use Rattle.field.specs.Held.{key_of};
ghost use Rattle.record.specs.Keys.{IsWhy};
ghost use Rattle.record.specs.Model.{bytes_of};
ghost use Rattle.record.specs.declared.keys.NoEntryKey.TheVariants.{Empty, TooLong};

use crate::entry_key::EntryKey;
use field::Key;

/// Why bytes are no key of an entry, which has 1 to 16 of them.
#[derive(Clone, Copy, Debug, PartialEq, Eq)]
pub enum NoEntryKey {
    Empty,
    TooLong,
}

impl From<field::TooLong> for NoEntryKey {
    ghost from_gives = { λ _ e. e ≡ TooLong };

    fn from(_: field::TooLong) -> NoEntryKey {
        NoEntryKey::TooLong
    }
}

impl TryFrom<Key> for EntryKey {
    type Error = NoEntryKey;

    ghost try_from_gives = { λ key r. MatchResult r (λ k. (bytes_of k ≡ key_of key) × (0 < length (key_of key)))
        (λ e. (e ≡ Empty) × (length (key_of key) ≡ 0)) };

    fn try_from(key: Key) -> Result<EntryKey, NoEntryKey> {
        if key.bytes().is_empty() {
            Err(NoEntryKey::Empty)
        } else {
            Ok(EntryKey { key })
        }
    }
}

impl TryFrom<&[u8]> for EntryKey {
    type Error = NoEntryKey;

    ghost try_from_gives = { λ s r. MatchResult r (λ k. (bytes_of k ≡ s.now) × (0 < length s.now) × (length s.now ≤ 16))
        (λ e. IsWhy e (length s.now)) };

    fn try_from(s: &[u8]) -> Result<EntryKey, NoEntryKey> {
        EntryKey::try_from(Key::try_from(s)?)
    }
}

impl EntryKey {
    pub fn bytes(&self) -> &[u8]
        ensures { result.now ≡ bytes_of self.now }
    {
        self.key.bytes()
    }
}
