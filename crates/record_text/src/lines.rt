// The lines of a text by their places, and which of them count.
ghost use Rattle.std.specs.Prelude.{◌≤◌, ◌<◌, length, drop};
ghost use Rattle.mesh_text.specs.Rows.{line};
ghost use Rattle.record_text.specs.Faults.{Silent};
ghost use Rattle.record_text.specs.Finds.{Whether, LineEnd};

use mesh_text::row::{first, from, over, rest};
use mesh_text::{Class, run};

// The place of the line feed of the line at a place; the text's length where it has none.
pub fn line_end(t: &[u8], at: usize) -> usize
    requires { at ≤ length t.now }
    ensures { LineEnd t.now at result }
{
    let n = run(from(t, at), Class::Line);
    at + n
}

// Whether the line at a place counts for nothing.
pub fn silent(t: &[u8], at: usize) -> bool
    ensures { Whether (Silent (line (drop at t.now))) result }
{
    let l = from(t, at);
    if over(l) {
        return true;
    }
    first(l).starts_with(b"#")
}

// Whether the line at a place has fewer than three words.
pub fn few(t: &[u8], at: usize) -> bool
    ensures { Whether (length (line (drop at t.now)) < 3) result }
{
    over(rest(rest(from(t, at))))
}
