// Over any bytes at all, whatever the log and the index, a key's way ends: a theorem.
#![tactic(auto)]

ghost use Rattle.endings.specs.Endings.{WaysEndOverAnyPages};

pub fn ways_end_over_any_pages()
    ensures { WaysEndOverAnyPages }
{}
