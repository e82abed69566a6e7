// The form of a page, checked in one way through its bytes.
ghost use Rattle.std.specs.Prelude.{◌≡◌};
ghost use Rattle.page.specs.Form.{are_fences, is_sound};
ghost use Rattle.page.specs.Image.{parse_page};
ghost use Rattle.page.specs.Walk.{walks_all};

use crate::entry::{ends_at, is_next};
use crate::headed::Headed;
use crate::header::is_header;
use crate::layout::{COUNT, FOSTER_CHILD, FOSTER_KEY, HEAP_END, HEAP_START, LEVEL, NUMBER, SLOTS};
use field::{field_at, half_at, word_at};
use order::{KeyOrder, below};
use seal::is_sealed;

// Whether these bytes are a page under an order of keys.
pub fn check<O: KeyOrder>(order: &O, b: &[u8; 512]) -> bool
    ensures { result ≡ is_sound O.KeyOrder.says b.now }
{
    if !is_header(b) {
        return false;
    }
    // Not by `Headed::new`: through its `Option` each turn over the slots takes five instructions more.
    let page = Headed::of(b);
    page.are_fences(order) & (page.walks_all(order) & is_sealed(b))
}

impl Headed<'_> {
    fn are_fences<O: KeyOrder>(&self, order: &O) -> bool
        ensures { result ≡ are_fences O.KeyOrder.says (parse_page self.now.image.now) }
    {
        let b = self.image;
        let low = self.low();
        let high = self.high();
        if !below(order, low, high) {
            return false;
        }
        if word_at(b, FOSTER_CHILD) == 0 {
            return true;
        }
        let key = field_at(b, FOSTER_KEY);
        below(order, low, Some(key)) & below(order, key, high)
    }

    fn walks_all<O: KeyOrder>(&self, order: &O) -> bool
        ensures { result ≡ walks_all O.KeyOrder.says self.now.image.now }
    {
        let b = self.image;
        let own = word_at(b, NUMBER);
        let level = b[LEVEL];
        let count = half_at(b, COUNT);
        let mut end = HEAP_END;
        let mut previous = self.low();
        // By number, as slots are read everywhere: chunks of two bytes would be cut out here only to be put together again.
        for i in 0..count {
            let at = half_at(b, SLOTS + 2 * i);
            if !ends_at(b, own, level, at, end) {
                return false;
            }
            let key = field_at(b, at);
            if !is_next(order, i == 0, level, previous, key) {
                return false;
            }
            previous = key;
            end = at;
        }
        (end == half_at(b, HEAP_START)) & below(order, previous, self.upper())
    }
}
