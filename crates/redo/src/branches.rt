// A record by which a branch adopts a foster child: it changes the branch, and the page that had the child.
ghost use Rattle.std.specs.Prelude.{◌≡◌};
ghost use Rattle.field.specs.Held.{key_of};
ghost use Rattle.page.specs.Image.{parse_page};
ghost use Rattle.page_edit.specs.Edits.{after_adopting, after_adoption, image_if};
ghost use Rattle.edits.specs.Suits.{can_adopt, fosters};

use crate::suits::{has_foster, has_key, holds_key};
use field::Key;
use order::KeyOrder;
use page_edit::after_adoption;
use page_view::Ordered;

pub(crate) fn redo_adopt<O: KeyOrder>(
    image: Ordered<'_, O>,
    position: u32,
    key: &Key,
    child: u32,
) -> Option<[u8; 512]>
    ensures { result ≡ image_if (can_adopt O.KeyOrder.says (key_of key.now) child (parse_page image.entry.view.image.now)) (after_adopting O.KeyOrder.says position (key_of key.now) child (parse_page image.entry.view.image.now)) }
{
    if image.view.level() == 0 || !holds_key(image, key) || has_key(image, key) {
        return None;
    }
    page_edit::adopt(image, position, key, child)
}

pub(crate) fn redo_adoption<O: KeyOrder>(
    image: Ordered<'_, O>,
    position: u32,
    key: &Key,
    child: u32,
) -> Option<[u8; 512]>
    ensures { result ≡ image_if (fosters O.KeyOrder.says (key_of key.now) child (parse_page image.entry.view.image.now).foster) (after_adoption position (key_of key.now) (parse_page image.entry.view.image.now)) }
{
    // no `then`: tried, and the proof of its closure did not close
    if has_foster(image, key, child) {
        Some(after_adoption(image.view, position, key))
    } else {
        None
    }
}
