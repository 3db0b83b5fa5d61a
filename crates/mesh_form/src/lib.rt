// The form of a Gmsh text, row by row.
#![tactic(auto)]

pub mod items;
pub mod rows;
pub mod values;
pub mod walk;

// Where a walk over the rows of a text stands; a section that is passed over by the place of its mark.
#[derive(Clone, Copy)]
pub enum Part {
    Outside(bool),
    BeforeFormat,
    BehindFormat,
    BeforeCount(Kind),
    Within(Kind, u64),
    Passing(bool, usize),
    Bad,
}

// A place in the text and where the walk stands there.
#[derive(Clone, Copy)]
pub struct Cursor {
    pub at: usize,
    pub part: Part,
}

// What a row of a section is: one of nodes, or one of elements.
#[derive(Clone, Copy)]
pub enum Kind {
    Node,
    Element,
}

// A row of nodes or elements: its kind and its place.
#[derive(Clone, Copy)]
pub struct Item {
    pub kind: Kind,
    pub at: usize,
}
