// The row of a node by its number: where the table has its place, from there, else by a scan.
ghost use Rattle.std.specs.Prelude.{◌≡◌, ◌&&◌, map, eqb, length, drop};
ghost use Rattle.mesh_text.specs.Rows.{line};
ghost use Rattle.mesh_form.specs.Mesh.{Repeats};
ghost use Rattle.mesh_form.specs.Walk.{kind_number};
ghost use Rattle.mesh_form.specs.Values.{id_of};
ghost use Rattle.mesh_nodes.specs.Nodes.{row_of, nodes_in, Seated, Seats};

use crate::table::lower;
use mesh_form::items::Items;
use mesh_form::values::number_at;
use mesh_form::{Item, Kind};

// Whether a row is that of the node n.
fn is_node(t: &[u8], item: Item, n: u64) -> bool
    ensures { result ≡ (eqb (kind_number item.kind) 1 && eqb (id_of (line (drop item.at t.now))) n) }
{
    match item.kind {
        Kind::Node => number_at(t, item.at) == n,
        Kind::Element => false,
    }
}

// The place of the first row with a node number; the text's length where there is none.
fn scan(t: &[u8], n: u64) -> usize
    ensures { line (drop result t.now) ≡ row_of n (nodes_in t.now) }
{
    for item in Items::of(t) {
        if is_node(t, item, n) {
            return item.at;
        }
    }
    t.len()
}

// Puts the place of a node's row beside its number.
fn seat_row(t: &[u8], numbers: &[u64], places: &mut [usize], item: Item)
    requires { Seats t.now places.old × (kind_number item.kind ≡ 1 → Seated t.now item.at) }
    ensures { Seats t.now places.new × (length places.new ≡ length places.old) }
{
    if let Kind::Node = item.kind {
        let k = lower(numbers, number_at(t, item.at));
        if k < places.len() {
            places[k] = item.at;
        }
    }
}

// Puts the places of all node rows beside their numbers.
pub fn seat(t: &[u8], numbers: &[u64], places: &mut [usize])
    requires { Seats t.now places.old }
    ensures { Seats t.now places.new × (length places.new ≡ length places.old) }
{
    for item in Items::of(t) {
        seat_row(t, numbers, places, item);
    }
}

// The place of the row of a node number.
// stays (1): a place that is 0 is none: specs/Nodes `Seated` states it, and an Option would double the table on the stack
pub fn find(t: &[u8], numbers: &[u64], places: &[usize], n: u64) -> usize
    requires seats { Seats t.now places.now }
    requires once { ¬ Repeats (map id_of (nodes_in t.now)) }
    ensures { line (drop result t.now) ≡ row_of n (nodes_in t.now) }
{
    let k = lower(numbers, n);
    if k < places.len() {
        let p = places[k];
        let m = number_at(t, p);
        if (0 < p) & (m == n) {
            return p;
        }
    }
    scan(t, n)
}
