// The verdict on an element.
#![tactic(auto)]
