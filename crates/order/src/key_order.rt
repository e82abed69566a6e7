ghost use Rattle.std.specs.Prelude.{◌≡◌};
ghost use Rattle.order.specs.Lawful.{Says, Lawful};

use std::cmp::Ordering;

// The length of the longest key.
pub const MAX_KEY: usize = 16;

// An order of keys. The laws ask nothing of strings longer than a key.
pub trait KeyOrder {
    ghost says: { Says };

    fn compare(&self, a: &[u8], b: &[u8]) -> Ordering
        ensures { result ≡ says a.now b.now };

    ghost lawful: { Lawful says };
}
