// Rows that come from no page: of one entry, or of none.
ghost use Rattle.std.specs.Prelude.{◌≡◌, []};
ghost use Rattle.page.specs.Content.Entry.{leaf};
ghost use Rattle.page.specs.Image.{entry_bytes};
ghost use Rattle.page_build.specs.Spliced.{listed};

use crate::fresh::Fresh;
use crate::row::EntryRow;

#[derive(Clone, Copy)]
pub struct Alone<'a> {
    pub fresh: Option<&'a Fresh>,
}

impl EntryRow for Alone<'_> {
    ghost entries = { λ s. listed s.fresh };

    fn count(&self) -> usize {
        usize::from(self.fresh.is_some())
    }

    fn entry(&self, _i: usize) -> &[u8] {
        match self.fresh {
            None => unreachable(),
            Some(f) => f.bytes(),
        }
    }
}

// Empty by its type, where `Alone` is empty by its value only: so it can promise what any number reads as.
#[derive(Clone, Copy)]
pub struct NoEntries;

impl EntryRow for NoEntries {
    ghost entries = { λ _. [] };

    fn count(&self) -> usize {
        0
    }

    // There is no slot to ask for, so any number reads as an entry that is not there: no key and no value, each with its length.
    fn entry(&self, _i: usize) -> &[u8]
        ensures { result.now ≡ entry_bytes (leaf [] []) }
    {
        &[0, 0]
    }
}
