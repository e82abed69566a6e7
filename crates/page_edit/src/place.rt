// Entries put into a page and taken out of it.
ghost use Rattle.std.specs.Prelude.{◌≡◌};
ghost use Rattle.field.specs.Held.{key_of, value_of};
ghost use Rattle.page.specs.Content.{entry_key};
ghost use Rattle.page.specs.Image.{parse_page};
ghost use Rattle.page_build.specs.Entered.{entry_in};
ghost use Rattle.page_edit.specs.Edits.{after_adopting, after_put, after_remove, fitting_image, has, image_if, placed, with_entries};
ghost use Rattle.page_edit.specs.Parts.{Parts};

use crate::kept::kept;
use field::{Key, Value};
use order::KeyOrder;
use page_build::{Fresh, Header, Spliced, fitted};
use page_view::Ordered;

// How many entries stay before an entry with this key, and where those behind it begin.
fn room_for<O: KeyOrder>(page: Ordered<'_, O>, key: &Key) -> (usize, usize)
    ensures { Parts O.KeyOrder.says (key_of key.now) (parse_page page.entry.view.image.now).entries result.0 result.1 }
{
    match page.find(key.bytes()) {
        Ok(i) => (i, i + 1),
        Err(i) => (i, i),
    }
}

fn place<'a, O: KeyOrder>(
    page: Ordered<'a, O>,
    lsn: u32,
    key: &Key,
    fresh: &'a Fresh,
) -> Option<[u8; 512]>
    requires { entry_key (entry_in fresh.now) ≡ key_of key.now }
    ensures { result ≡ fitting_image (with_entries lsn (placed O.KeyOrder.says (entry_in fresh.now) (parse_page page.entry.view.image.now).entries) (parse_page page.entry.view.image.now)) }
{
    let h = Header::of(page.view, lsn);
    let (keep, resume) = room_for(page, key);
    let row = Spliced {
        old: page.view,
        keep,
        fresh: Some(fresh),
        resume,
    };
    fitted(&h, &row)
}

// A leaf in which the key has the value, if there is room. The bytes of a value that is replaced are free.
pub fn put<O: KeyOrder>(
    page: Ordered<'_, O>,
    lsn: u32,
    key: &Key,
    value: &Value,
) -> Option<[u8; 512]>
    ensures { result ≡ fitting_image (after_put O.KeyOrder.says lsn (key_of key.now) (value_of value.now) (parse_page page.entry.view.image.now)) }
{
    place(page, lsn, key, &Fresh::of_leaf(key, value))
}

// A branch that gained an entry, if there is room.
pub fn adopt<O: KeyOrder>(
    page: Ordered<'_, O>,
    lsn: u32,
    key: &Key,
    child: u32,
) -> Option<[u8; 512]>
    ensures { result ≡ fitting_image (after_adopting O.KeyOrder.says lsn (key_of key.now) child (parse_page page.entry.view.image.now)) }
{
    place(page, lsn, key, &Fresh::of_branch(key, child))
}

// A leaf without the key, if it was there.
pub fn remove<O: KeyOrder>(page: Ordered<'_, O>, lsn: u32, key: &Key) -> Option<[u8; 512]>
    ensures { result ≡ image_if (has O.KeyOrder.says (key_of key.now) (parse_page page.entry.view.image.now).entries) (after_remove O.KeyOrder.says lsn (key_of key.now) (parse_page page.entry.view.image.now)) }
{
    let Ok(slot) = page.find(key.bytes()) else {
        return None;
    };
    let h = Header::of(page.view, lsn);
    Some(kept(&h, page.view, slot, slot + 1))
}
