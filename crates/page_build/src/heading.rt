// The header of an old page, for the next one.
ghost use Rattle.std.specs.Prelude.{◌≡◌, ◌≤◌, length};
ghost use Rattle.field.specs.Held.{key_of};
ghost use Rattle.page.specs.Image.{parse_page};
ghost use Rattle.page_build.specs.Told.{Heads};

use crate::header::{Foster, Header};
use field::Key;
use page_view::{FosterView, PageView};

impl Foster {
    fn of(lent: FosterView<'_>) -> Foster
        requires { length lent.key.now ≤ 16 }
        ensures key { key_of result.key ≡ lent.entry.key.now }
        ensures child { result.child ≡ lent.entry.child }
    {
        Foster {
            key: Key::new(lent.key),
            child: lent.child,
        }
    }
}

impl Header {
    // The page's own, with another position.
    pub fn of(page: PageView<'_>, lsn: u32) -> Header
        ensures { Heads result lsn (parse_page page.entry.image.now) }
    {
        Header {
            number: page.number(),
            lsn,
            level: page.level(),
            low: Key::new(page.low()),
            high: page.high().map(Key::new),
            foster: page.foster().map(Foster::of),
        }
    }
}
