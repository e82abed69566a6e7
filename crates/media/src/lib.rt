// What a run keeps of a device and a log, and that actions keep it, to the end or until power fails in one: lemmas.
#![tactic(auto)]
