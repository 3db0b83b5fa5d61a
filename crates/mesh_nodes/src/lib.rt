// The node rows of a text: whole coordinates, and a node by its number.
#![tactic(auto)]

pub mod find;
pub mod table;
pub mod want;
pub mod whole;
