// The worked examples, computed from the definitions of the store, and runs that come to what the promises speak of.
#![tactic(auto)]

ghost use Rattle.examples.specs.Witness.{RunsWithCutsHarmAndLossExist};
ghost use Rattle.examples.specs.Worked.{WorkedExamples};

pub fn worked_examples_hold()
    ensures { WorkedExamples }
{}

pub fn runs_with_cuts_harm_and_loss_exist()
    ensures { RunsWithCutsHarmAndLossExist }
{}
