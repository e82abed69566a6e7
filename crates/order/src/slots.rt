ghost use Rattle.std.specs.Prelude.{◌<◌, ◌≤◌, length, Decides};
ghost use Rattle.order.specs.Slots.{Ascending, Follows, Found, Floor};

use crate::key_order::{KeyOrder, MAX_KEY};
use crate::row::KeyRow;
use std::cmp::Ordering;

// The keys are short and ascend, as `find` and `floor` ask of them.
pub fn ascends<O: KeyOrder, R: KeyRow>(order: &O, row: &R) -> bool
    ensures { Decides result (Ascending O.KeyOrder.says (R.KeyRow.keys row.now)) }
{
    (0..row.count()).all(|slot| follows(order, row, slot))
}

// The key in the slot is short, and greater than the one before it.
fn follows<O: KeyOrder, R: KeyRow>(order: &O, row: &R, slot: usize) -> bool
    requires { slot < length (R.KeyRow.keys row.now) }
    ensures { Decides result (Follows O.KeyOrder.says (R.KeyRow.keys row.now) slot) }
{
    let key = row.key(slot);
    key.len() <= MAX_KEY && (slot == 0 || order.compare(row.key(slot - 1), key).is_lt())
}

// The slot that has the key, or else how many keys are less. Keys lie in slots, each lent as a slice, and there
// is no slice of them to search by the library; the key looked for is such a slice, too.
pub fn find<O: KeyOrder, R: KeyRow>(order: &O, row: &R, key: &[u8]) -> Result<usize, usize>
    requires ascending { Ascending O.KeyOrder.says (R.KeyRow.keys row.now) }
    requires short { length key.now ≤ 16 }
    ensures { Found O.KeyOrder.says (R.KeyRow.keys row.now) key.now result }
{
    let mut low = 0;
    let mut high = row.count();
    while low < high {
        let mid = low + (high - low) / 2;
        match order.compare(row.key(mid), key) {
            Ordering::Less => low = mid + 1,
            Ordering::Equal => return Ok(mid),
            Ordering::Greater => high = mid,
        }
    }
    Err(low)
}

// The last slot whose key is not above the given one.
pub fn floor<O: KeyOrder, R: KeyRow>(order: &O, row: &R, key: &[u8]) -> Option<usize>
    requires ascending { Ascending O.KeyOrder.says (R.KeyRow.keys row.now) }
    requires short { length key.now ≤ 16 }
    ensures { Floor O.KeyOrder.says (R.KeyRow.keys row.now) key.now result }
{
    match find(order, row, key) {
        Ok(slot) => Some(slot),
        Err(less) => less.checked_sub(1),
    }
}
