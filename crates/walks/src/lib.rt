// The law of walks over cells.
#![tactic(auto)]
