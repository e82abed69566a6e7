ghost use Rattle.page.specs.Content.{keys_of};
ghost use Rattle.page.specs.Image.{parse_page};

use crate::view::PageView;
use order::KeyRow;

impl KeyRow for PageView<'_> {
    ghost keys = { λ v. keys_of (parse_page v.image.now) };

    fn count(&self) -> usize {
        PageView::count(self)
    }

    fn key(&self, i: usize) -> &[u8] {
        PageView::entry(self, i).key()
    }
}
