// A page divided in two.
ghost use Rattle.std.specs.Prelude.{◌≡◌, ◌<◌, length};
ghost use Rattle.page.specs.Content.{cost, costs, entry_at, entry_key};
ghost use Rattle.page.specs.Image.{encode_page, parse_page};
ghost use Rattle.field.specs.Held.{key_of};
ghost use Rattle.page_edit.specs.Edits.{first_half, lower_half, upper_half};

use crate::kept::kept;
use field::Key;
use order::KeyOrder;
use page_build::{Foster, Header};
use page_view::{Ordered, PageView};

// What the entries of a page cost of its 436 bytes.
pub fn cost(page: PageView<'_>) -> usize
    ensures { result ≡ costs (parse_page page.entry.image.now).entries }
{
    page.entries().map(|entry| entry.cost()).sum()
}

// The slot whose key divides a page: the entries before it are the fewest that cost at least half of all.
pub fn divider(page: PageView<'_>) -> usize
    ensures { result ≡ first_half (parse_page page.entry.image.now).entries }
{
    let total = cost(page);
    // A loop, since each turn asks for the sum so far: `scan` and `position` would say no more in two closures.
    let mut spent = 0;
    for entry in page.entries() {
        spent += entry.cost();
        if total <= 2 * spent {
            return entry.slot() + 1;
        }
    }
    page.count()
}

// The division of a page: its entries from a slot on go to the new page `other`, its foster child.
#[derive(Drop)]
pub struct Division<'a, O: KeyOrder> {
    pub page: Ordered<'a, O>,
    pub lsn: u32,
    pub slot: usize,
    pub other: u32,
    ghost within: { slot < length (parse_page page.view.image.now).entries },
}

impl<O: KeyOrder> Division<'_, O> {
    // The key from which on the new page has the entries.
    fn key(&self) -> Key
        ensures { key_of result ≡ entry_key (entry_at (parse_page self.now.page.view.image.now) self.now.slot) }
    {
        Key::new(self.page.view.entry(self.slot).key())
    }

    // The page without its entries from the slot on.
    pub fn lower(&self) -> [u8; 512]
        ensures { result ≡ encode_page (lower_half O.KeyOrder.says self.now.lsn (entry_key (entry_at (parse_page self.now.page.view.image.now) self.now.slot)) self.now.other (parse_page self.now.page.view.image.now)) }
    {
        let page = self.page.view;
        let mut h = Header::of(page, self.lsn);
        h.foster = Some(Foster {
            key: self.key(),
            child: self.other,
        });
        kept(&h, page, self.slot, page.count())
    }

    // The new page with those entries.
    pub fn upper(&self) -> [u8; 512]
        ensures { result ≡ encode_page (upper_half O.KeyOrder.says self.now.lsn (entry_key (entry_at (parse_page self.now.page.view.image.now) self.now.slot)) self.now.other (parse_page self.now.page.view.image.now)) }
    {
        let page = self.page.view;
        let mut h = Header::of(page, self.lsn);
        h.number = self.other;
        h.low = self.key();
        kept(&h, page, 0, self.slot)
    }
}
