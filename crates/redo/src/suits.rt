// What a record asks of the page that it changes.
ghost use Rattle.std.specs.Prelude.{◌≡◌};
ghost use Rattle.field.specs.Held.{key_of};
ghost use Rattle.page.specs.Image.{parse_page};
ghost use Rattle.page_edit.specs.Edits.{has};
ghost use Rattle.edits.specs.Suits.{fosters, holds_key};

use field::Key;
use order::{KeyOrder, holds};
use page_view::Ordered;

// The key lies in the page's range.
pub(crate) fn holds_key<O: KeyOrder>(image: Ordered<'_, O>, key: &Key) -> bool
    ensures { result ≡ holds_key O.KeyOrder.says (key_of key.now) (parse_page image.entry.view.image.now) }
{
    holds(
        image.order,
        image.view.low(),
        key.bytes(),
        image.view.upper(),
    )
}

// An entry has the key.
pub(crate) fn has_key<O: KeyOrder>(image: Ordered<'_, O>, key: &Key) -> bool
    ensures { result ≡ has O.KeyOrder.says (key_of key.now) (parse_page image.entry.view.image.now).entries }
{
    image.find(key.bytes()).is_ok()
}

// The foster child is this page, from this key on.
pub(crate) fn has_foster<O: KeyOrder>(image: Ordered<'_, O>, key: &Key, child: u32) -> bool
    ensures { result ≡ fosters O.KeyOrder.says (key_of key.now) child (parse_page image.entry.view.image.now).foster }
{
    image.view.foster().is_some_and(|f| image.order.compare(key.bytes(), f.key).is_eq()
        && child == f.child)
}
