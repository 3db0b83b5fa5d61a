// The node numbers that elements of ours want, put into the table.
ghost use Rattle.std.specs.Prelude.{◌≡◌, ◌≤◌, length};

use crate::table::insert;
use mesh_form::items::Items;
use mesh_form::values::{nine_at, size_of, type_at};
use mesh_form::{Item, Kind};

// Some numbers.
fn want_names(numbers: &mut [u64], have: usize, names: &[u64]) -> usize
    requires { have ≤ length numbers.old }
    ensures { (result ≤ length numbers.old) × (length numbers.new ≡ length numbers.old) }
{
    let mut n = have;
    for name in names {
        n = insert(numbers, n, *name);
    }
    n
}

// Those of a row, if it is of an element of ours.
fn want_row(t: &[u8], numbers: &mut [u64], have: usize, item: Item) -> usize
    requires { have ≤ length numbers.old }
    ensures { (result ≤ length numbers.old) × (length numbers.new ≡ length numbers.old) }
{
    match item.kind {
        Kind::Node => have,
        Kind::Element => match size_of(type_at(t, item.at)) {
            Some(size) => {
                let names = nine_at(t, item.at);
                want_names(numbers, have, &names[..size])
            }
            None => have,
        },
    }
}

// Those of a text, as many as there is room for; how many that are.
pub fn want(t: &[u8], numbers: &mut [u64]) -> usize
    ensures { (result ≤ length numbers.old) × (length numbers.new ≡ length numbers.old) }
{
    let mut have: usize = 0;
    for item in Items::of(t) {
        have = want_row(t, numbers, have, item);
        if numbers.len() <= have {
            return have;
        }
    }
    have
}
