// A record that divides a page.
ghost use Rattle.std.specs.Prelude.{◌≡◌};
ghost use Rattle.field.specs.Held.{key_of};
ghost use Rattle.page.specs.Image.{parse_page};
ghost use Rattle.record.specs.Contents.{foster};
ghost use Rattle.redo.specs.Redone.{redone_image};
ghost use Rattle.redo.specs.Slots.{DividesIn};

use crate::suits::holds_key;
use field::Key;
use order::KeyOrder;
use page_edit::Division;
use page_view::Ordered;

// The slot that has the key. The first does not divide: no entry would stay.
fn dividing_slot<O: KeyOrder>(image: Ordered<'_, O>, key: &Key) -> Option<usize>
    ensures { DividesIn O.KeyOrder.says (key_of key.now) (parse_page image.entry.view.image.now) result }
{
    match image.find(key.bytes()) {
        Ok(slot) if slot > 0 => Some(slot),
        _ => None,
    }
}

pub(crate) fn redo_foster<O: KeyOrder>(
    image: Ordered<'_, O>,
    position: u32,
    page: u32,
    other: u32,
    key: &Key,
) -> Option<[u8; 512]>
    ensures { result ≡ redone_image O.KeyOrder.says position (foster 0 0 other (key_of key.now)) page (parse_page image.entry.view.image.now) }
{
    if !holds_key(image, key) {
        return None;
    }
    let mut division = Division {
        page: image,
        lsn: position,
        slot: dividing_slot(image, key)?,
        other,
    };
    if page == other {
        division.other = 0;
        Some(division.upper())
    } else {
        Some(division.lower())
    }
}
