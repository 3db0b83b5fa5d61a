// Words and rows of a Gmsh text, and what its words stand for: every function takes every input.
#![tactic(auto)]

pub mod row;
pub mod word;

ghost use Rattle.std.specs.Prelude.{◌≡◌, ◌≤◌, length};
ghost use Rattle.mesh_text.specs.Rows.{in_class, run as run_of, past as past_of};

// What a byte is looked at for: a blank within a line, a byte of a word, a blank or a line feed, a byte of a line, a digit, a zero.
#[derive(Clone, Copy)]
pub enum Class {
    Blank,
    Word,
    White,
    Line,
    Digit,
    Zero,
}

// Whether a byte is of a class.
#[tactic(auto, unfolding(crate::specs::Rows::in_class))]
fn is(class: Class, b: u8) -> bool
    ensures { result ≡ in_class class b }
{
    match class {
        Class::Blank => (b == 32) | ((b == 9) | (b == 13)),
        Class::Word => !(((b == 32) | ((b == 9) | (b == 13))) | (b == 10)),
        Class::White => ((b == 32) | ((b == 9) | (b == 13))) | (b == 10),
        Class::Line => !(b == 10),
        Class::Digit => (48 <= b) & (b <= 57),
        Class::Zero => b == 48,
    }
}

// How long the run of bytes of a class is that a text starts with.
pub fn run(t: &[u8], class: Class) -> usize
    ensures { (result ≡ length (run_of (in_class class) t.now)) × (result ≤ length t.now) }
{
    for (i, b) in t.iter().enumerate() {
        if !is(class, *b) {
            return i;
        }
    }
    t.len()
}

// That run.
pub fn front(t: &[u8], class: Class) -> &[u8]
    ensures { result.now ≡ run_of (in_class class) t.now }
{
    let n = run(t, class);
    &t[..n]
}

// What is behind it.
pub fn past(t: &[u8], class: Class) -> &[u8]
    ensures { result.now ≡ past_of (in_class class) t.now }
{
    let n = run(t, class);
    &t[n..]
}
