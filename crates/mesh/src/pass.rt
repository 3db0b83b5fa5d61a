// A pass over the elements of a text.
ghost use Rattle.std.specs.Prelude.{◌≡◌, [], ◌∷◌, ◌≤◌, ◌<◌, length, drop};
ghost use Rattle.batch.specs.Tallies.{Moves};
ghost use Rattle.mesh_text.specs.Rows.{All, line};
ghost use Rattle.mesh_text.specs.Tests.{value_of};
ghost use Rattle.mesh_form.specs.Walk.{kind_number};
ghost use Rattle.mesh_form.specs.Values.{id_of, type_of, size_of_type};
ghost use Rattle.mesh_nodes.specs.Nodes.{nodes_in, Seats};
ghost use Rattle.mesh_elements.specs.Rows.{given_of, givens_of, passed_of, elements_in};
ghost use Rattle.mesh.specs.Taken.{rows_of, taken_in, passed_in};

use crate::source::Source;
use batch::{Tally, one_passed, take};
use faults::refusal::Refusal;
use mesh_elements::coords_at;
use mesh_form::items::Items;
use mesh_form::values::{number_at, size_of, type_at};
use mesh_form::{Item, Kind};

// The number of the element in the row at a place.
fn id_at(t: &[u8], at: usize) -> u32
    requires { id_of (line (drop at t.now)) < 4294967296 }
    ensures { result ≡ id_of (line (drop at t.now)) }
{
    number_at(t, at) as u32
}

// Tries the element of ours in the row at a place, of so many nodes, and writes its record behind those that were taken.
fn take_ours(
    m: Source<'_>,
    at: usize,
    size: usize,
    s: Tally,
    out: &mut [u8],
) -> Result<Tally, Refusal>
    requires seats { Seats m.t.now m.places.now }
    requires sized { size ≡ size_of_type (type_of (line (drop at m.t.now))) }
    requires fits { id_of (line (drop at m.t.now)) < 4294967296 }
    requires few { s.taken ≤ s.count }
    requires long { 64000 ≤ length out.old }
    ensures { Moves (given_of m.entry.limit value_of (nodes_in m.entry.t.now) (line (drop at m.entry.t.now)) ∷ []) 0 s out.old result out.new }
{
    let id = id_at(m.t, at);
    let n = 2 * size;
    let xs = coords_at(m.t, m.numbers, m.places, at);
    take(s, id, size as u8, m.limit, &xs[..n], out)
}

// A row: an element of ours is taken, any other is passed over, and a node is nothing here.
fn take_row(m: Source<'_>, item: Item, s: Tally, out: &mut [u8]) -> Result<Tally, Refusal>
    requires seats { Seats m.t.now m.places.now }
    requires fits { kind_number item.kind ≡ 2 → id_of (line (drop item.at m.t.now)) < 4294967296 }
    requires few { s.taken ≤ s.count }
    requires long { 64000 ≤ length out.old }
    requires room { s.passed < 18446744073709551615 }
    ensures { Moves (givens_of m.entry.limit value_of (nodes_in m.entry.t.now) (rows_of (kind_number item.kind) (line (drop item.at m.entry.t.now)))) (passed_of (rows_of (kind_number item.kind) (line (drop item.at m.entry.t.now)))) s out.old result out.new }
{
    match item.kind {
        Kind::Node => Ok(s),
        Kind::Element => match size_of(type_at(m.t, item.at)) {
            Some(size) => take_ours(m, item.at, size, s, out),
            None => Ok(one_passed(s)),
        },
    }
}

// All elements of a text, up to the first that is refused.
pub fn gather(m: Source<'_>, first: Tally, out: &mut [u8]) -> Result<Tally, Refusal>
    requires seats { Seats m.t.now m.places.now }
    requires fits { All (λ r. id_of r < 4294967296) (elements_in m.t.now) }
    requires fresh { (first.taken ≡ 0) × (first.passed ≡ 0) × (first.count ≤ 800) }
    requires long { 64000 ≤ length out.old }
    ensures { Moves (taken_in m.entry.limit m.entry.t.now) (passed_in m.entry.t.now) first out.old result out.new }
{
    let mut s = first;
    for item in Items::of(m.t) {
        s = take_row(m, item, s, out)?;
    }
    Ok(s)
}
