// The tree without bytes: images of pages, records as changes, the way of a key, and the theorems about them, each on a contract.
#![tactic(auto)]

ghost use Rattle.tree.specs.Halves.{PagesDivide};
ghost use Rattle.tree.specs.Log.{ChainsRebuild, LogsSound};
ghost use Rattle.tree.specs.Plan.{PlansKept};
ghost use Rattle.tree.specs.Suits.{BuiltFormed};
ghost use Rattle.tree.specs.Tree.{SoundStays, WaysEnd, NextsFound};
ghost use Rattle.tree.specs.Walk.{WalksRight, WaysShort};

// Put, remove, foster, adopt and grow each leave a sound tree sound.
pub fn sound_stays()
    ensures { SoundStays }
{}

// In a sound tree the way of every key ends, at the leaf that has the value which stands for it.
pub fn ways_end()
    ensures { WaysEnd }
{}

// From leaf to leaf by upper bounds, the least standing key above a key is found.
pub fn nexts_found()
    ensures { NextsFound }
{}

// A page made again from its chain is its image, or the newest lost record of the chain is told.
pub fn chains_rebuild()
    ensures { ChainsRebuild }
{}

// A log whose every record might be appended when it was, makes a sound tree.
pub fn logs_sound()
    ensures { LogsSound }
{}

// With fetches that may fail, a way fails exactly at the first page of the true way that cannot be fetched.
pub fn walks_right()
    ensures { WalksRight }
{}

// A row of entries that costs more than twice its dearest one has a key inside that divides it.
pub fn pages_divide()
    ensures { PagesDivide }
{}

// What a put and a tending call plan may be appended.
pub fn plans_kept()
    ensures { PlansKept }
{}

// Over any well-formed pages, sound or not, one page more than are born is enough for a way.
pub fn ways_short()
    ensures { WaysShort }
{}

// Whatever a log holds, what is made again from it is well formed.
pub fn built_formed()
    ensures { BuiltFormed }
{}
