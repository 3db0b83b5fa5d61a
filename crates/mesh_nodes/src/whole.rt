// Whether the coordinates of all nodes are whole, and z is 0.
ghost use Rattle.std.specs.Prelude.{◌≡◌, cond, true, eqb, drop};
ghost use Rattle.mesh_text.specs.Rows.{line};
ghost use Rattle.mesh_form.specs.Walk.{kind_number};
ghost use Rattle.mesh_nodes.specs.Nodes.{flat_b, flats_b, nodes_in};

use mesh_form::items::Items;
use mesh_form::{Item, Kind};
use mesh_text::row::{first, from, rest};
use mesh_text::word::{is_whole, is_zero};

// Those of the node in a row.
fn is_flat(t: &[u8]) -> bool
    ensures { result ≡ flat_b (line t.now) }
{
    let t1 = rest(t);
    let t2 = rest(t1);
    let t3 = rest(t2);
    let x = is_whole(first(t1));
    let y = is_whole(first(t2));
    let z = is_zero(first(t3));
    x & (y & z)
}

// The same for a row; of an element nothing is asked.
fn is_flat_row(t: &[u8], item: Item) -> bool
    ensures { result ≡ cond (eqb (kind_number item.kind) 1) (flat_b (line (drop item.at t.now))) true }
{
    match item.kind {
        Kind::Node => is_flat(from(t, item.at)),
        Kind::Element => true,
    }
}

// Those of all nodes of a text.
pub fn whole(t: &[u8]) -> bool
    ensures { result ≡ flats_b (nodes_in t.now) }
{
    for item in Items::of(t) {
        if !is_flat_row(t, item) {
            return false;
        }
    }
    true
}
