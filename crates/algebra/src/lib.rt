// What the library lacks for whole numbers: laws, order, sizes, a solver, and the relation for proofs of signed code. No code.
#![tactic(auto)]
