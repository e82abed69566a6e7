// What the store promises over its runs: over every lawful order of keys, every outcome of failing power, every harm and loss.
#![tactic(auto)]

ghost use Rattle.model.specs.Promises.{
  GetAnswersTheLastStandingPut,
  NextGivesTheLeastPresentKeyAbove,
  GetTellsExactlyWhatIsLost,
  OpenRefusesExactlyALogWithAGap,
  OpenIndexIsThatOfTheLog,
};

// A get that answers a value gives that of its key's last standing put; one that answers "absent" is right.
pub fn get_answers_the_last_standing_put()
    ensures { GetAnswersTheLastStandingPut }
{}

// A next gives the least present key above its own, with its value, or there is none.
pub fn next_gives_the_least_present_key_above()
    ensures { NextGivesTheLeastPresentKeyAbove }
{}

// A get tells a lost record exactly when a page on its key's way is harmed and has one in its chain: the first such page, and that chain's
// newest lost record.
pub fn get_tells_exactly_what_is_lost()
    ensures { GetTellsExactlyWhatIsLost }
{}

// Open refuses exactly a log that is empty or has lost a record.
pub fn open_refuses_exactly_a_log_with_a_gap()
    ensures { OpenRefusesExactlyALogWithAGap }
{}

// An open store's index has the newest position of every born page, and at most 256 of them.
pub fn open_index_is_that_of_the_log()
    ensures { OpenIndexIsThatOfTheLog }
{}
