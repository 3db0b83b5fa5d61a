// The rows of a text, and the words of a row.
ghost use Rattle.std.specs.Prelude.{◌≡◌, ◌≤◌, ◌<◌, length, drop};
ghost use Rattle.mesh_text.specs.Rows.{first as first_of, rest as rest_of, line, more, is_nil, RowAt, RowAfter, WordAfter};

use crate::{Class, front, past, run};

// The first word of a line; none where the line has no word.
pub fn first(t: &[u8]) -> &[u8]
    ensures { result.now ≡ first_of (line t.now) }
{
    front(past(t, Class::Blank), Class::Word)
}

// The text behind that word.
pub fn rest(t: &[u8]) -> &[u8]
    ensures { (line result.now ≡ rest_of (line t.now)) × (more result.now ≡ more t.now) }
{
    past(past(t, Class::Blank), Class::Word)
}

// Whether a line has no word.
pub fn over(t: &[u8]) -> bool
    ensures { result ≡ is_nil (line t.now) }
{
    run(past(t, Class::Blank), Class::Word) == 0
}

// The text from a place on; none from a place behind it.
pub fn from(t: &[u8], at: usize) -> &[u8]
    ensures { result.now ≡ drop at t.now }
{
    if at < t.len() {
        return &t[at..];
    }
    let n = t.len();
    &t[n..]
}

// The place of the first row from a place on; the text's length where there is none.
pub fn row_at(t: &[u8], at: usize) -> usize
    requires { at ≤ length t.now }
    ensures { RowAt t.now at result }
{
    let n = run(from(t, at), Class::White);
    at + n
}

// The place behind the line at a place.
pub fn row_after(t: &[u8], at: usize) -> usize
    requires { at ≤ length t.now }
    ensures { RowAfter t.now at result }
{
    let n = run(from(t, at), Class::Line);
    let end = at + n;
    if end < t.len() {
        return end + 1;
    }
    end
}

// The place behind the first word of the line at a place.
pub fn word_after(t: &[u8], at: usize) -> usize
    requires { at ≤ length t.now }
    ensures { WordAfter t.now at result }
{
    let n = run(from(t, at), Class::Blank);
    let b = at + n;
    let m = run(from(t, b), Class::Word);
    b + m
}
