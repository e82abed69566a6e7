// Records that change an entry of a leaf.
ghost use Rattle.std.specs.Prelude.{◌≡◌};
ghost use Rattle.field.specs.Held.{key_of, value_of};
ghost use Rattle.page.specs.Image.{parse_page};
ghost use Rattle.record.specs.Contents.{put, remove};
ghost use Rattle.redo.specs.Redone.{redone_image};

use crate::suits::holds_key;
use field::{Key, Value};
use order::KeyOrder;
use page_view::Ordered;

pub(crate) fn redo_put<O: KeyOrder>(
    image: Ordered<'_, O>,
    position: u32,
    key: &Key,
    value: &Value,
) -> Option<[u8; 512]>
    ensures { result ≡ redone_image O.KeyOrder.says position (put 0 0 (key_of key.now) (value_of value.now)) 0 (parse_page image.entry.view.image.now) }
{
    if image.view.level() != 0 || !holds_key(image, key) {
        return None;
    }
    page_edit::put(image, position, key, value)
}

pub(crate) fn redo_remove<O: KeyOrder>(
    image: Ordered<'_, O>,
    position: u32,
    key: &Key,
) -> Option<[u8; 512]>
    ensures { result ≡ redone_image O.KeyOrder.says position (remove 0 0 (key_of key.now)) 0 (parse_page image.entry.view.image.now) }
{
    if image.view.level() != 0 {
        return None;
    }
    page_edit::remove(image, position, key)
}
