// Texts are equal if their bytes are.
ghost use Rattle.std.specs.Prelude.{◌≡◌, Decides, nat_eq};
ghost use Rattle.std.specs.Cmp.Lexicographic.{pointwise};
ghost use Rattle.field.specs.Held.{text_of};
ghost use Rattle.std.specs.Cmp.Rules.{comparing};
ghost use Rattle.std.proofs.Common.{rules};

use crate::held::Text;

// By hand, since a derive compares images and carries no clause.
impl<const SIZE: usize> PartialEq for Text<SIZE> {
    ghost eq = { λ x y. pointwise nat_eq (text_of x) (text_of y) };

    ghost laws = { Prim.search (comparing, rules) };

    fn eq(&self, other: &Text<SIZE>) -> bool
        ensures eq { result ≡ pointwise nat_eq (text_of self.now) (text_of other.now) }
        ensures equals { Decides result (text_of self.now ≡ text_of other.now) }
    {
        self.image == other.image
    }
}

impl<const SIZE: usize> Eq for Text<SIZE> {
    ghost laws = { Prim.search (comparing, rules) };
}
