// Every lawful order of keys compares numbers: how many keys are less.
#![tactic(auto)]

ghost use Rattle.ranks.specs.Ranks.{Told, LawfulComparesRanks};

use order::{KeyOrder, every_order_is_lawful};

// There are finitely many keys, so each has a rank among them.
pub fn every_lawful_order_compares_ranks()
    ensures { LawfulComparesRanks }
{}

pub fn every_order_compares_ranks<O: KeyOrder>(order: &O)
    ensures { Told O.KeyOrder.says }
{
    every_order_is_lawful(order);
    every_lawful_order_compares_ranks();
}
