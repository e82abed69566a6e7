// What the plans of calls do in a run, by the index, a change and opening, and behind a key's way by put, remove and tend: lemmas.
#![tactic(auto)]
