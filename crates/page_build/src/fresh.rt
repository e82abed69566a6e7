// The bytes of one entry.
ghost use Rattle.std.specs.Prelude.{◌≡◌, ◌≤◌, take};
ghost use Rattle.page.specs.Image.{entry_bytes};
ghost use Rattle.page_build.specs.Fresh.{fresh_entry};

// The longest has a key of 16 bytes and a value of 64, each behind its length. A buffer of its own, since a copy of an `ArrayVec` is not
// to be had; `branch` tells which of two kinds it is, and nothing but the clauses asks.
#[derive(Clone, Copy)]
pub struct Fresh {
    pub(crate) bytes: [u8; 82],
    pub(crate) len: usize,
    pub(crate) branch: bool,
    ghost fits: { len ≤ 82 },
    ghost whole: { entry_bytes (fresh_entry branch len bytes) ≡ take len bytes },
}
