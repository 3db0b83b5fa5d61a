// One pass over a text that looks up the node numbers of its elements that are in a window.
ghost use Rattle.std.specs.Prelude.{◌+◌, ◌≤◌, length, drop};
ghost use Rattle.mesh_text.specs.Rows.{line};
ghost use Rattle.mesh_form.specs.Walk.{items_of, kind_number};
ghost use Rattle.mesh_numbers.specs.Bits.{width};
ghost use Rattle.mesh_numbers.specs.Numbers.{gather, wanted_by, wanted};
ghost use Rattle.mesh_numbers.specs.Windows.{start as start_of, Looks};

use crate::flag::{lacks, lesser};
use crate::{Pass, Window};
use mesh_form::items::Items;
use mesh_form::values::{nine_at, size_of, type_at};
use mesh_form::{Item, Kind};

// Looks up numbers.
fn look_among(flags: &[u8], w: Window, p: Pass, names: &[u64]) -> Pass
    ensures { Looks w.base w.lim flags.now p names.now result }
{
    let mut found = p.found;
    let mut above = p.above;
    for n in names {
        let missing = lacks(flags, w.base, *n);
        found = found | missing;
        above = lesser(*n, w.lim, above);
    }
    Pass { found, above }
}

// Looks up the node numbers of a row, if it is of an element of ours.
fn look_row(t: &[u8], flags: &[u8], w: Window, p: Pass, item: Item) -> Pass
    ensures { Looks w.base w.lim flags.now p (gather wanted_by (items_of (kind_number item.kind) (line (drop item.at t.now)))) result }
{
    match item.kind {
        Kind::Node => p,
        Kind::Element => match size_of(type_at(t, item.at)) {
            Some(size) => {
                let names = nine_at(t, item.at);
                look_among(flags, w, p, &names[..size])
            }
            None => p,
        },
    }
}

// Looks up the node numbers of all elements of ours: whether one is not marked, and the least above the window, or 2^32.
pub fn look(t: &[u8], flags: &[u8], base: u64) -> Pass
    requires base_bound { base ≤ 4294967296 }
    requires flags_len_bound { length flags.now ≤ 1048576 }
    ensures { Looks base (base + width flags.now) flags.now start_of (wanted t.now) result }
{
    let w = Window {
        base,
        lim: base + 8 * (flags.len() as u64),
    };
    let mut p = Pass {
        found: false,
        above: 4294967296,
    };
    for item in Items::of(t) {
        p = look_row(t, flags, w, p, item);
    }
    p
}
