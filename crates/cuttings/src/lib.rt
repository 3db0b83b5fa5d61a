// Cuttings as bytes (02, Ask 5): definitions and proofs alone.
#![tactic(auto)]
