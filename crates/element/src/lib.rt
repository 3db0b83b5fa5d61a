// The kinds of element, their nodes, J, and their control values.
#![tactic(auto)]
