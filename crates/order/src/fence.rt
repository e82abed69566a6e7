ghost use Rattle.std.specs.Prelude.{◌≡◌};
ghost use Rattle.order.specs.Fences.{lent, is_below, is_held};

use crate::key_order::KeyOrder;

// The key is below the bound. `None` is above every key.
pub fn below<O: KeyOrder>(order: &O, key: &[u8], bound: Option<&[u8]>) -> bool
    ensures { result ≡ is_below O.KeyOrder.says key.now (lent bound.entry) }
{
    bound.is_none_or(|b| order.compare(key, b).is_lt())
}

// The key is from the low fence on and below the upper bound.
pub fn holds<O: KeyOrder>(order: &O, low: &[u8], key: &[u8], upper: Option<&[u8]>) -> bool
    ensures { result ≡ is_held O.KeyOrder.says low.now key.now (lent upper.entry) }
{
    order.compare(low, key).is_le() && below(order, key, upper)
}
