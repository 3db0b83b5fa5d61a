// The rows of nodes and elements of a text, one after the other.
ghost use Rattle.std.specs.Prelude.{◌≡◌, false, ◌-◌, ◌≤◌, length};

use crate::walk::{kind_of, step};
use crate::{Cursor, Item, Kind, Part};
use mesh_text::row::{row_after, row_at};

// The rows of nodes and elements of a text that are left from a cursor on.
#[derive(Clone, Copy)]
pub struct Items<'a> {
    pub t: &'a [u8],
    pub c: Cursor,
    pub ghost inside: { c.at ≤ length t.now },
}

// A row that is found: its kind where it is of nodes or elements, and its place.
#[derive(Clone, Copy)]
pub struct Found {
    pub kind: Option<Kind>,
    pub at: usize,
}

impl<'a> Items<'a> {
    ghost use Rattle.mesh_form.specs.Walk.{Reads};
    ghost use Rattle.mesh_form.specs.Items.{found_row};
    ghost use Rattle.mesh_form.specs.declared.Part.TheVariants.{Outside};

    // Those of a whole text.
    pub fn of(t: &'a [u8]) -> Items<'a>
        ensures text { result.t.now ≡ t.now }
        ensures start { result.c ≡ record { at = 0; part = Outside false } }
    {
        let part = Part::Outside(false);
        Items {
            t,
            c: Cursor { at: 0, part },
        }
    }

    // The next row of any kind.
    fn row(&mut self) -> Option<Found>
        ensures same { self.new.t ≡ self.old.t }
        ensures reads { Reads 3 self.old.t.now self.old.c (found_row result self.new.c) }
    {
        let t = self.t;
        let part = self.c.part;
        let at = row_at(t, self.c.at);
        if at < t.len() {
            let kind = kind_of(part);
            let behind = step(t, at, part);
            let end = row_after(t, at);
            self.c = Cursor {
                at: end,
                part: behind,
            };
            return Some(Found { kind, at });
        }
        self.c = Cursor { at, part };
        None
    }
}

impl<'a> Iterator for Items<'a> {
    ghost use Rattle.std.specs.Iterator.{at_most};
    ghost use Rattle.mesh_form.specs.Items.{Gives};

    type Item = Item;

    ghost next_gives = { Gives };

    ghost remaining = { λ s. at_most (length s.t.now - s.c.at) };

    fn next(&mut self) -> Option<Item> {
        while let Some(row) = self.row() {
            if let Some(kind) = row.kind {
                return Some(Item { kind, at: row.at });
            }
        }
        None
    }
}
