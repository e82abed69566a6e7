// Rows of entries made of those of an old page.
ghost use Rattle.page.specs.Image.{parse_page};
ghost use Rattle.page_build.specs.Spliced.{listed, spliced};

use crate::fresh::Fresh;
use crate::row::EntryRow;
use page_view::PageView;

// The first `keep` entries of the old page, the fresh one if there is one, and the old entries from slot `resume` on.
#[derive(Clone, Copy)]
pub struct Spliced<'a> {
    pub old: PageView<'a>,
    pub keep: usize,
    pub fresh: Option<&'a Fresh>,
    pub resume: usize,
}

impl EntryRow for Spliced<'_> {
    ghost entries = { λ s. spliced (parse_page s.old.image.now).entries s.keep (listed s.fresh) s.resume };

    fn count(&self) -> usize {
        let n = self.old.count();
        let kept = self.keep.min(n);
        let rest = n.saturating_sub(self.resume);
        // told apart as `entry` does
        match self.fresh {
            None => kept + rest,
            Some(_) => kept + 1 + rest,
        }
    }

    fn entry(&self, i: usize) -> &[u8] {
        let kept = self.keep.min(self.old.count());
        if i < kept {
            return self.old.entry(i).bytes();
        }
        match self.fresh {
            None => self.old.entry(self.resume + (i - kept)).bytes(),
            Some(f) if i == kept => f.bytes(),
            Some(_) => self.old.entry(self.resume + (i - kept - 1)).bytes(),
        }
    }
}
