// A record of any kind applied.
ghost use Rattle.std.specs.Prelude.{◌≡◌};
ghost use Rattle.page.specs.Image.{parse_page};
ghost use Rattle.record.specs.Model.{content_of};
ghost use Rattle.redo.specs.Redone.{redone_image};

use crate::branches::{redo_adopt, redo_adoption};
use crate::halves::redo_foster;
use crate::leaves::{redo_put, redo_remove};
use crate::roots::redo_grow;
use order::KeyOrder;
use page_view::Ordered;
use record::Record;

// The image that a record at a position makes of an earlier one, as the new image of the page, if it suits.
pub fn redo<O: KeyOrder>(
    image: Ordered<'_, O>,
    record: &Record,
    page: u32,
    position: u32,
) -> Option<[u8; 512]>
    ensures { result ≡ redone_image O.KeyOrder.says position (content_of «record».now) page (parse_page image.entry.view.image.now) }
{
    match record {
        Record::Format => Some(page_edit::format(position)),
        Record::Put { key, value, .. } => redo_put(image, position, &key.key, value),
        Record::Remove { key, .. } => redo_remove(image, position, &key.key),
        Record::Foster { other, key, .. } => {
            redo_foster(image, position, page, *other, &key.key)
        }
        Record::Adopt {
            other,
            child,
            key,
            ..
        } => {
            if page == *other {
                redo_adoption(image, position, &key.key, *child)
            } else {
                redo_adopt(image, position, &key.key, *child)
            }
        }
        Record::Grow { other, .. } => redo_grow(image.view, position, page, *other),
    }
}
