// Standard input and output of the programs that make a block of a text, and the turns of those that ./bench times.
#![tactic(auto)]

pub mod input;
pub mod output;
pub mod turns;
