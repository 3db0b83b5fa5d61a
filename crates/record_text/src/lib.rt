// The form of a text of records: where it is broken (code 13), and where a coordinate is not whole (code 14).
#![tactic(auto)]

pub mod find;
pub mod lines;

// What is looked for: a line that is not of the form, or a coordinate that is not whole.
// stays (7): specs/Finds states the two searches by it (FlawBy, LacksBy, words_by, last_by, codes_by), and the theorems of append_text cite them
#[derive(Clone, Copy)]
pub enum Test {
    Form,
    Whole,
}

// Where a fault is: the numbers of its line and of its word, from 1; word 0 where the line as a whole has it.
#[derive(Clone, Copy)]
pub struct Place {
    pub line: u64,
    pub word: u64,
}
