// A walk over the rows of a text: from row to row, and from one row of nodes or elements to the next.
ghost use Rattle.std.specs.Prelude.{◌≡◌, cond, true, List, ℕ, eqb, drop};
ghost use Rattle.mesh_text.specs.Rows.{line, rows};
ghost use Rattle.mesh_form.specs.Mesh.{Formed};
ghost use Rattle.mesh_form.specs.Walk.{outside, before_format, behind_format, before_count, within, passing, bad, name_of, named, opened as opened_of, end_b, step as step_of, meaning, kind_of, row_number, kind_number, is_node as node_kind, form_b, done_b, node_b, element_b};

use crate::items::Items;
use crate::rows::{is_element, is_end, is_format, is_mark, is_node};
use crate::{Item, Kind, Part};
use mesh_text::row::{first, from, over, rest};
use mesh_text::word::{number, same, tail};

// Before a count, where a format has been seen.
#[tactic(auto, unfolding(crate::specs::Walk::meaning))]
fn counting(seen: bool, kind: Kind) -> Part
    ensures { (t : List ℕ) → meaning t result ≡ cond seen (before_count (node_kind kind)) bad }
{
    if seen {
        return Part::BeforeCount(kind);
    }
    Part::Bad
}

// Behind the mark at a place.
#[tactic(auto, unfolding(crate::specs::Walk::opened, crate::specs::Walk::meaning))]
fn opened(t: &[u8], at: usize, seen: bool) -> Part
    ensures { meaning t.now result ≡ opened_of seen (name_of (line (drop at t.now))) }
{
    let name = tail(first(from(t, at)));
    if same(name, b"MeshFormat") {
        return Part::BeforeFormat;
    }
    if same(name, b"Nodes") {
        return counting(seen, Kind::Node);
    }
    if same(name, b"Elements") {
        return counting(seen, Kind::Element);
    }
    Part::Passing(seen, at)
}

// The row at a place, outside of sections.
#[tactic(auto, unfolding(crate::specs::Walk::meaning, crate::specs::Walk::step))]
fn at_mark(t: &[u8], at: usize, seen: bool) -> Part
    ensures { meaning t.now result ≡ step_of (outside seen) (line (drop at t.now)) }
{
    if is_mark(from(t, at)) {
        return opened(t, at, seen);
    }
    Part::Bad
}

// The row of a format.
#[tactic(auto, unfolding(crate::specs::Walk::meaning, crate::specs::Walk::step))]
fn at_format(t: &[u8], at: usize) -> Part
    ensures { meaning t.now result ≡ step_of before_format (line (drop at t.now)) }
{
    if is_format(from(t, at)) {
        return Part::BehindFormat;
    }
    Part::Bad
}

// The row behind it.
#[tactic(auto, unfolding(crate::specs::Walk::meaning, crate::specs::Walk::step))]
fn at_format_end(t: &[u8], at: usize) -> Part
    ensures { meaning t.now result ≡ step_of behind_format (line (drop at t.now)) }
{
    if is_end(from(t, at), b"MeshFormat") {
        return Part::Outside(true);
    }
    Part::Bad
}

// The row of a count.
#[tactic(auto, unfolding(crate::specs::Walk::meaning, crate::specs::Walk::step))]
fn at_count(t: &[u8], at: usize, kind: Kind) -> Part
    ensures { meaning t.now result ≡ step_of (before_count (node_kind kind)) (line (drop at t.now)) }
{
    let r = from(t, at);
    let n = number(first(r));
    let alone = over(rest(r));
    if alone & (n < 4294967296) {
        return Part::Within(kind, n);
    }
    Part::Bad
}

// Whether a row ends the nodes, or the elements.
fn is_close(t: &[u8], kind: Kind) -> bool
    ensures { result ≡ end_b (named (node_kind kind)) (line t.now) }
{
    match kind {
        Kind::Node => is_end(t, b"Nodes"),
        Kind::Element => is_end(t, b"Elements"),
    }
}

// A row of nodes or of elements, n of which are left, or their end.
#[tactic(auto, unfolding(crate::specs::Walk::step, crate::specs::Walk::meaning))]
fn at_row(t: &[u8], at: usize, kind: Kind, n: u64) -> Part
    ensures { meaning t.now result ≡ step_of (within (node_kind kind) n) (line (drop at t.now)) }
{
    if 0 < n {
        return Part::Within(kind, n - 1);
    }
    if is_close(from(t, at), kind) {
        return Part::Outside(true);
    }
    Part::Bad
}

// A row of a section that is passed over, whose mark stands at p.
#[tactic(auto, unfolding(crate::specs::Walk::meaning, crate::specs::Walk::step))]
fn at_passed(t: &[u8], at: usize, seen: bool, p: usize) -> Part
    ensures { meaning t.now result ≡ step_of (passing seen (name_of (line (drop p t.now)))) (line (drop at t.now)) }
{
    let name = tail(first(from(t, p)));
    if is_end(from(t, at), name) {
        return Part::Outside(seen);
    }
    Part::Passing(seen, p)
}

// Where the walk stands behind the row at a place.
#[tactic(auto, unfolding(crate::specs::Walk::meaning, crate::specs::Walk::step))]
pub(crate) fn step(t: &[u8], at: usize, part: Part) -> Part
    ensures { meaning t.now result ≡ step_of (meaning t.now part) (line (drop at t.now)) }
{
    match part {
        Part::Outside(seen) => at_mark(t, at, seen),
        Part::BeforeFormat => at_format(t, at),
        Part::BehindFormat => at_format_end(t, at),
        Part::BeforeCount(kind) => at_count(t, at, kind),
        Part::Within(kind, n) => at_row(t, at, kind, n),
        Part::Passing(seen, p) => at_passed(t, at, seen, p),
        Part::Bad => Part::Bad,
    }
}

// The kind of the next row within a section.
#[tactic(auto, unfolding(crate::specs::Walk::kind_of))]
fn row_kind(kind: Kind, n: u64) -> Option<Kind>
    ensures { row_number result ≡ kind_of (within (node_kind kind) n) }
{
    if n == 0 {
        return None;
    }
    Some(kind)
}

// The kind of the next row, where it is of nodes or elements.
#[tactic(auto, unfolding(crate::specs::Walk::kind_of, crate::specs::Walk::meaning))]
pub(crate) fn kind_of(part: Part) -> Option<Kind>
    ensures { (t : List ℕ) → row_number result ≡ kind_of (meaning t part) }
{
    match part {
        Part::Within(kind, n) => row_kind(kind, n),
        _ => None,
    }
}

// Whether a row is a good one of its kind.
fn is_item(t: &[u8], item: Item) -> bool
    ensures { result ≡ cond (eqb (kind_number item.kind) 1) (node_b (line (drop item.at t.now))) (element_b (line (drop item.at t.now))) }
{
    let row = from(t, item.at);
    match item.kind {
        Kind::Node => is_node(row),
        Kind::Element => is_element(row),
    }
}

// Whether a text may end here.
#[tactic(auto, unfolding(crate::specs::Walk::done_b, crate::specs::Walk::meaning))]
fn is_done(part: Part) -> bool
    ensures { (t : List ℕ) → result ≡ done_b (meaning t part) }
{
    match part {
        Part::Outside(seen) => seen,
        _ => false,
    }
}

// Whether the walk over a text ends well and every row of nodes and elements is good.
fn walks(t: &[u8]) -> bool
    ensures { result ≡ form_b (rows t.now) }
{
    let mut left = Items::of(t);
    while let Some(item) = left.next() {
        if !is_item(t, item) {
            return false;
        }
    }
    is_done(left.c.part)
}

// Whether a text is of the form, but for double numbers.
pub fn form(t: &[u8]) -> bool
    ensures { Formed t.now result }
{
    walks(t)
}
