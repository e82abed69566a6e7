// A row of entries, each read as its bytes, wherever it comes from.
ghost use Rattle.std.specs.Prelude.{◌≡◌, ◌<◌, List, [], length, slice_index_or};
ghost use Rattle.page.specs.Content.{Entry};
ghost use Rattle.page.specs.Content.Entry.{leaf};
ghost use Rattle.page.specs.Image.{entry_bytes};

pub trait EntryRow {
    ghost entries: { Self → List Entry };

    fn count(&self) -> usize
        ensures { result ≡ length (entries self.now) };

    fn entry(&self, i: usize) -> &[u8]
        requires { i < length (entries self.now) }
        ensures { result.now ≡ entry_bytes (slice_index_or (entries self.now) i (leaf [] [])) };
}
