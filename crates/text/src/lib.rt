// Words and numbers of a line of text, read and written: every function takes every input and stays inside what it is lent.
#![tactic(auto)]

pub mod read;
pub mod write;
