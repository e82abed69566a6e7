// Runs that were made elsewhere: the definitions of the store give the same answers.
#![tactic(auto)]

ghost use Rattle.run_vectors.specs.Made.{RunsMadeElsewhereAgree};

// 257 calls in three runs, with pages and records harmed between them.
pub fn runs_made_elsewhere_agree()
    ensures { RunsMadeElsewhereAgree }
{}
