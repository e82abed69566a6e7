// Entries to go into a page.
ghost use Rattle.std.specs.Prelude.{◌≡◌, ◌+◌, ◌≤◌, ◌++◌, length, take};
ghost use Rattle.field.specs.Held.{key_of, value_of};
ghost use Rattle.page.specs.Content.Entry.{leaf, branch};
ghost use Rattle.page.specs.Image.{entry_bytes};
ghost use Rattle.page_build.specs.Entered.{entry_in};

use crate::fresh::Fresh;
use field::{Key, Value, put};

// Two parts, one behind the other.
fn joined(first: &[u8], second: &[u8]) -> [u8; 82]
    requires { length first.now + length second.now ≤ 82 }
    ensures { take (length first.now + length second.now) result ≡ first.now ++ second.now }
{
    let mut bytes = [0; 82];
    put(&mut bytes, 0, first);
    put(&mut bytes, first.len(), second);
    bytes
}

impl Fresh {
    // An entry of a leaf.
    pub fn of_leaf(key: &Key, value: &Value) -> Fresh
        ensures { entry_in result ≡ leaf (key_of key.now) (value_of value.now) }
    {
        let first = key.prefixed();
        let second = value.prefixed();
        let bytes = joined(first, second);
        Fresh {
            bytes,
            len: first.len() + second.len(),
            branch: false,
        }
    }

    // An entry of a branch.
    pub fn of_branch(key: &Key, child: u32) -> Fresh
        ensures { entry_in result ≡ branch (key_of key.now) child }
    {
        let first = key.prefixed();
        let second = child.to_le_bytes();
        let bytes = joined(first, &second);
        Fresh {
            bytes,
            len: first.len() + 4,
            branch: true,
        }
    }

    pub fn bytes(&self) -> &[u8]
        ensures { result.now ≡ entry_bytes (entry_in self.now) }
    {
        &self.bytes[0..self.len]
    }
}
