// Which number a float is. No code.
#![tactic(auto)]
