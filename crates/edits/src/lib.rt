// What page_edit makes of a page's content is the content of what the tree makes of the page's image: theorems.
#![tactic(auto)]

ghost use Rattle.edits.specs.Agree.{
  PutIsTheTrees,
  RemoveIsTheTrees,
  AdoptingIsTheTrees,
  HasIsTheTrees,
  HalvesAreTheTrees,
  AdoptionIsTheTrees,
  GrowthIsTheTrees,
  FormatIsTheTrees,
  CostsAreTheTrees,
  DividersAreTheTrees,
  SuitsIsTheTrees,
};

pub fn put_is_the_trees()
    ensures { PutIsTheTrees }
{}

pub fn remove_is_the_trees()
    ensures { RemoveIsTheTrees }
{}

pub fn adopting_is_the_trees()
    ensures { AdoptingIsTheTrees }
{}

pub fn has_is_the_trees()
    ensures { HasIsTheTrees }
{}

pub fn halves_are_the_trees()
    ensures { HalvesAreTheTrees }
{}

pub fn adoption_is_the_trees()
    ensures { AdoptionIsTheTrees }
{}

pub fn growth_is_the_trees()
    ensures { GrowthIsTheTrees }
{}

pub fn format_is_the_trees()
    ensures { FormatIsTheTrees }
{}

pub fn costs_are_the_trees()
    ensures { CostsAreTheTrees }
{}

pub fn dividers_are_the_trees()
    ensures { DividersAreTheTrees }
{}

// The code's test of a record on a page's content is the tree's on its image.
pub fn suits_is_the_trees()
    ensures { SuitsIsTheTrees }
{}
