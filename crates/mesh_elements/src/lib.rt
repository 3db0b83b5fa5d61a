// The elements of a text that are ours: their coordinates in our order.
#![tactic(auto)]

ghost use Rattle.std.specs.Prelude.{◌≡◌, map, ◌*◌, drop, take};
ghost use Rattle.mesh_text.specs.Rows.{line};
ghost use Rattle.mesh_text.specs.Tests.{clipped};
ghost use Rattle.mesh_form.specs.Mesh.{Repeats};
ghost use Rattle.mesh_form.specs.Values.{word, id_of, type_of, size_of_type};
ghost use Rattle.mesh_nodes.specs.Nodes.{nodes_in, Seats};
ghost use Rattle.mesh_elements.specs.Orders.{order};
ghost use Rattle.mesh_elements.specs.Rows.{coords_of};

use mesh_form::values::{nine_at, type_at};
use mesh_nodes::find::find;
use mesh_text::row::{first, from, rest};
use mesh_text::word::value;

// For each node of ours, in our order, its place in Gmsh's order; no node for a type that is not ours.
fn order_of(kind: u64) -> &'static [usize]
    ensures { result.now ≡ order kind }
{
    match kind {
        9 => &[0, 1, 2, 3, 4, 5],
        10 => &[0, 4, 1, 7, 8, 5, 3, 6, 2],
        16 => &[0, 4, 1, 7, 5, 3, 6, 2],
        _ => &[],
    }
}

// The x of the node in the row at a place.
fn x_at(t: &[u8], at: usize) -> i64
    ensures { result ≡ clipped 4294967295 (word (line (drop at t.now)) 1) }
{
    value(first(rest(from(t, at))))
}

// Its y.
fn y_at(t: &[u8], at: usize) -> i64
    ensures { result ≡ clipped 4294967295 (word (line (drop at t.now)) 2) }
{
    value(first(rest(rest(from(t, at)))))
}

// The coordinates of the element in the row at a place, in our order; those beyond 2^32 - 1 in size are of that size.
pub fn coords_at(t: &[u8], numbers: &[u64], places: &[usize], at: usize) -> [i64; 18]
    requires seats { Seats t.now places.now }
    requires once { ¬ Repeats (map id_of (nodes_in t.now)) }
    ensures { take (2 * size_of_type (type_of (line (drop at t.now)))) result ≡ coords_of (clipped 4294967295) (nodes_in t.now) (line (drop at t.now)) }
{
    let order = order_of(type_at(t, at));
    let names = nine_at(t, at);
    let mut out = [0i64; 18];
    for (k, j) in order.iter().enumerate() {
        let p = find(t, numbers, places, names[*j]);
        out[2 * k] = x_at(t, p);
        out[2 * k + 1] = y_at(t, p);
    }
    out
}
