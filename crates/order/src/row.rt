ghost use Rattle.std.specs.Prelude.{◌≡◌, ℕ, ◌<◌, List, length};
ghost use Rattle.order.specs.Slots.{key_at};
ghost use Rattle.order.specs.Lent.{behind};

// Keys in slots, each lent where it lies.
pub trait KeyRow {
    ghost keys: { Self → List (List ℕ) };

    fn count(&self) -> usize
        ensures { result ≡ length (keys self.now) };

    fn key(&self, i: usize) -> &[u8]
        requires { i < length (keys self.now) }
        ensures { result.now ≡ key_at (keys self.now) i };
}

// Keys that lie anywhere, lent in a row.
#[derive(Clone, Copy)]
pub struct LentKeys<'a, 'k>(pub &'a [&'k [u8]]);

impl KeyRow for LentKeys<'_, '_> {
    ghost keys = { λ row. behind row.0.now };

    fn count(&self) -> usize {
        self.0.len()
    }

    fn key(&self, i: usize) -> &[u8] {
        self.0[i]
    }
}
