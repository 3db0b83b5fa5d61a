// An element moved by a whole vector has the same answer from every call that takes its coordinates.
#![tactic(auto)]
