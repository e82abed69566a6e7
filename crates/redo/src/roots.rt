// A record by which the root grows.
ghost use Rattle.std.specs.Prelude.{◌≡◌, ◌&&◌, if◌then◌else◌, nat_eq, nat_lt};
ghost use Rattle.page.specs.Image.{parse_page};
ghost use Rattle.page_edit.specs.Edits.{grown_child, grown_root, image_if};
ghost use Rattle.tree.specs.Halves.{some};

use page_edit::{grown_child, grown_root};
use page_view::PageView;

// It has a foster child, and a level above it is left.
fn can_grow(image: PageView<'_>) -> bool
    ensures { result ≡ (some (parse_page image.entry.image.now).foster && nat_lt (parse_page image.entry.image.now).level 255) }
{
    image.foster().is_some() && image.level() < 255
}

pub(crate) fn redo_grow(
    image: PageView<'_>,
    position: u32,
    page: u32,
    other: u32,
) -> Option<[u8; 512]>
    ensures { result ≡ image_if (some (parse_page image.entry.image.now).foster && nat_lt (parse_page image.entry.image.now).level 255) (if nat_eq page 0 then grown_root position other (parse_page image.entry.image.now) else grown_child position 0 (parse_page image.entry.image.now)) }
{
    if !can_grow(image) {
        return None;
    }
    if page == 0 {
        grown_root(image, position, other)
    } else {
        Some(grown_child(image, position, 0))
    }
}
