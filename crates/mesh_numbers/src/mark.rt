// One pass over a text that marks the numbers of its nodes that are in a window.
ghost use Rattle.std.specs.Prelude.{◌+◌, ◌≤◌, length, drop};
ghost use Rattle.mesh_text.specs.Rows.{line};
ghost use Rattle.mesh_form.specs.Walk.{items_of, kind_number};
ghost use Rattle.mesh_numbers.specs.Bits.{width};
ghost use Rattle.mesh_numbers.specs.Numbers.{gather, node_number, numbers};
ghost use Rattle.mesh_numbers.specs.Windows.{start as start_of, Marks};

use crate::flag::{lesser, mark_one};
use crate::{Pass, Window};
use mesh_form::items::Items;
use mesh_form::values::number_at;
use mesh_form::{Item, Kind};

// Marks the number of a row, if it is of a node.
fn mark_row(t: &[u8], flags: &mut [u8], w: Window, p: Pass, item: Item) -> Pass
    ensures { Marks w.base w.lim flags.old p (gather node_number (items_of (kind_number item.kind) (line (drop item.at t.now)))) result flags.new }
{
    match item.kind {
        Kind::Node => {
            let n = number_at(t, item.at);
            let again = mark_one(flags, w.base, n);
            let above = lesser(n, w.lim, p.above);
            Pass {
                found: p.found | again,
                above,
            }
        }
        Kind::Element => p,
    }
}

// Marks the numbers of all nodes: whether one was marked when it came, and the least number above the window, or 2^32.
pub fn mark(t: &[u8], flags: &mut [u8], base: u64) -> Pass
    requires base_bound { base ≤ 4294967296 }
    requires flags_len_bound { length flags.old ≤ 1048576 }
    ensures { Marks base (base + width flags.old) flags.old start_of (numbers t.now) result flags.new }
{
    let w = Window {
        base,
        lim: base + 8 * (flags.len() as u64),
    };
    let mut p = Pass {
        found: false,
        above: 4294967296,
    };
    for item in Items::of(t) {
        p = mark_row(t, flags, w, p, item);
    }
    p
}
