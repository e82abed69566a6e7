// Pages that keep entries of an old one under another header.
ghost use Rattle.std.specs.Prelude.{◌≡◌, ◌≤◌, []};
ghost use Rattle.field.specs.Held.{key_of};
ghost use Rattle.page.specs.Image.{encode_page, parse_page};
ghost use Rattle.page_build.specs.Spliced.{spliced};
ghost use Rattle.page_build.specs.Told.{content_of};
ghost use Rattle.page_edit.specs.Edits.{after_adoption, grown_child};

use field::Key;
use page_build::{EntryRow, Header, Spliced, build};
use page_view::PageView;

// The first `keep` entries, and those from slot `resume` on.
pub(crate) fn kept(h: &Header, page: PageView<'_>, keep: usize, resume: usize) -> [u8; 512]
    requires { keep ≤ resume }
    ensures { result ≡ encode_page (content_of h.now (spliced (parse_page page.entry.image.now).entries keep [] resume)) }
{
    build(
        h,
        &Spliced {
            old: page,
            keep,
            fresh: None,
            resume,
        },
    )
}

// All entries.
fn whole(h: &Header, page: PageView<'_>) -> [u8; 512]
    ensures { result ≡ encode_page (content_of h.now (parse_page page.entry.image.now).entries) }
{
    let n = page.count();
    kept(h, page, n, n)
}

// The page whose foster child was adopted: it ends at the foster key, which is its high fence now.
pub fn after_adoption(page: PageView<'_>, lsn: u32, key: &Key) -> [u8; 512]
    ensures { result ≡ encode_page (after_adoption lsn (key_of key.now) (parse_page page.entry.image.now)) }
{
    let mut h = Header::of(page, lsn);
    h.high = Some(*key);
    h.foster = None;
    whole(&h, page)
}

// The new page that takes all that a root had.
pub fn grown_child(page: PageView<'_>, lsn: u32, other: u32) -> [u8; 512]
    ensures { result ≡ encode_page (grown_child lsn other (parse_page page.entry.image.now)) }
{
    let mut h = Header::of(page, lsn);
    h.number = other;
    whole(&h, page)
}
