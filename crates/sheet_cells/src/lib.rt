// The cutting of a cell, read from a sheet or written to one (02, Ask 5): byte by byte, for cells of both shapes at once. Cells are cut
// by the constant tables, not as the judge's walks cut them.
#![tactic(auto)]

pub mod either;
pub mod read;
pub mod write;
