// A page together with an order under which its keys ascend, so that a key is found in it.
ghost use Rattle.std.specs.Prelude.{◌≡◌, ◌≤◌, true, length, IfSome, is_some};
ghost use Rattle.order.specs.Slots.{Floor, Found};
ghost use Rattle.page.specs.Content.{keys_of};
ghost use Rattle.page.specs.Form.{is_ordered, is_sound};
ghost use Rattle.page.specs.Image.{parse_page};

use crate::view::PageView;
use order::KeyOrder;
use page::check;
use std::alloc::AllocError;

pub struct Ordered<'a, O: KeyOrder> {
    pub view: PageView<'a>,
    pub order: &'a O,
    ghost ordered: { is_ordered O.says (parse_page view.image.now) ≡ true },
}

// By hand, since `O` itself may be no copy.
impl<O: KeyOrder> Copy for Ordered<'_, O> {}

impl<O: KeyOrder> Clone for Ordered<'_, O> {
    ghost is_clone = { λ x y. y ≡ x };

    ghost is_infallible = { λ _. Unit {0} };

    fn clone(&self) -> Result<Self, AllocError> {
        Ok(*self)
    }
}

impl<'a, O: KeyOrder> Ordered<'a, O> {
    // The page that these bytes are under the order, if they are one.
    pub fn new(order: &'a O, image: &'a [u8; 512]) -> Option<Ordered<'a, O>>
        ensures made { is_some result ≡ is_sound O.KeyOrder.says image.now }
        ensures kept { IfSome result (λ p. p.view.image.now ≡ image.now) }
    {
        // no `then_some`: it would be made before the test
        if check(order, image) {
            Some(Ordered {
                view: PageView::new(image),
                order,
            })
        } else {
            None
        }
    }

    // The same where its keys are known to ascend.
    pub fn of(order: &'a O, view: PageView<'a>) -> Ordered<'a, O>
        requires { is_ordered O.KeyOrder.says (parse_page view.image.now) ≡ true }
        ensures { result.view ≡ view.entry }
    {
        Ordered { view, order }
    }

    // The slot that has a key, or else how many keys are less. A key comes as a slice: one that is lent by a page would have to be copied for a `Key`.
    pub fn find(&self, key: &[u8]) -> Result<usize, usize>
        requires short { length key.now ≤ 16 }
        ensures { Found O.KeyOrder.says (keys_of (parse_page self.now.view.image.now)) key.now result }
    {
        order::find(self.order, &self.view, key)
    }

    // The last slot whose key is not above the given one, a slice as in `find`.
    pub fn floor(&self, key: &[u8]) -> Option<usize>
        requires short { length key.now ≤ 16 }
        ensures { Floor O.KeyOrder.says (keys_of (parse_page self.now.view.image.now)) key.now result }
    {
        order::floor(self.order, &self.view, key)
    }
}
