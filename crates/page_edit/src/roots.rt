// The root of a tree: new, and grown.
ghost use Rattle.std.specs.Prelude.{◌≡◌, nat_lt};
ghost use Rattle.page.specs.Image.{encode_page, parse_page};
ghost use Rattle.page_edit.specs.Edits.{formatted, grown_root, image_if};

use field::Key;
use page_build::{Alone, Fresh, Header, NoEntries, build};
use page_view::PageView;

// Page 0 of a new tree.
pub fn format(lsn: u32) -> [u8; 512]
    ensures { result ≡ encode_page (formatted lsn) }
{
    let h = Header {
        number: 0,
        lsn,
        level: 0,
        low: Key::new(&[]),
        high: None,
        foster: None,
    };
    build(&h, &NoEntries)
}

// A root one level higher, with one entry: the new page that has all it had. No level is above 255.
pub fn grown_root(page: PageView<'_>, lsn: u32, other: u32) -> Option<[u8; 512]>
    ensures { result ≡ image_if (nat_lt (parse_page page.entry.image.now).level 255) (grown_root lsn other (parse_page page.entry.image.now)) }
{
    let level = page.level();
    if level == 255 {
        return None;
    }
    let mut h = Header::of(page, lsn);
    h.level = level + 1;
    h.foster = None;
    let entry = Fresh::of_branch(&Key::new(&[]), other);
    Some(build(
        &h,
        &Alone {
            fresh: Some(&entry),
        },
    ))
}
