// The walk over the cells of a triangle (01: "A cell that does not pass is split in four"). A cell stands at the grid point (i, j),
// its first corner; its second and third corner stand a column and a row on where it points up, and back where it points down.
#![tactic(auto)]

ghost use Rattle.std.specs.Prelude.{◌≡◌, false};
ghost use Rattle.forms.specs.Shapes.{pass};
ghost use Rattle.forms.specs.Triangles.{triangle};
ghost use Rattle.steps.specs.Steps as steps;
ghost use Rattle.walks.specs.Room.{Few};
ghost use Rattle.triangle_walk.specs.Walks.{Low, Room, cell_walk};
ghost use Rattle.triangle_walk.specs.Walks as walks;

pub mod cell;

use crate::cell::TriangleCell;
use corners::none_found;
use steps::{Walk, kept, leaf, lowered, merge};

// The column, or the row, beside k: the next where the cell points up, the one before where it points down.
pub fn ahead(up: bool, k: u32) -> u32
    requires { Low 1048576 up k }
    ensures { result ≡ walks.ahead up k }
{
    if up {
        return k + 1;
    }
    k - 1
}

// A walk w, and after it that of a cell of the level, to the limit that w leaves. A cell that passes is tested here, without a call.
#[cycle(next_walk_cell_walk_open)]
fn next<C: TriangleCell>(
    w: Walk,
    c: &C,
    left: u32,
    level: u32,
    stop: u32,
    i: u32,
    j: u32,
    up: bool,
) -> Walk
    requires { Few 3145728 w × Room (triangle C.degree C.degrees C.place) left level i j up (C.values c.now) }
    ensures { result ≡ steps.merge w (cell_walk (triangle C.degree C.degrees C.place) left level (steps.lowered stop w.best) i j up (C.values c.now)) }
{
    let limit = lowered(stop, w);
    if c.passes() {
        return kept(w, level);
    }
    merge(w, walk_open(c, left, level, limit, i, j, up))
}

// The walk of a cell that does not pass.
#[cycle(next_walk_cell_walk_open)]
fn walk_open<C: TriangleCell>(
    c: &C,
    left: u32,
    level: u32,
    stop: u32,
    i: u32,
    j: u32,
    up: bool,
) -> Walk
    requires { (pass (triangle C.degree C.degrees C.place) (C.values c.now) ≡ false) × Room (triangle C.degree C.degrees C.place) left level i j up (C.values c.now) }
    ensures { result ≡ cell_walk (triangle C.degree C.degrees C.place) left level stop i j up (C.values c.now) }
{
    let x = ahead(up, i);
    let y = ahead(up, j);
    if !c.corners_positive() | (stop <= level) | (left == 0) {
        return leaf(level, c.first_bad(level, [i, x, i], [j, j, y]), 1);
    }
    let n = left - 1;
    let l = level + 1;
    // the first corners of the quarters, on the grid of the next level: those of the cell, and the middles of its edges
    let ii = 2 * i;
    let jj = 2 * j;
    let ix = i + x;
    let jy = j + y;
    let p = walk_cell(&c.split(0), n, l, stop, ii, jj, up);
    let q = next(p, &c.split(1), n, l, stop, ix, jj, up);
    let r = next(q, &c.split(2), n, l, stop, ii, jy, up);
    next(r, &c.split(3), n, l, stop, ix, jy, !up)
}

// The walk of a cell of the level at the grid point (i, j): at most `left` cuts, none below the level `stop`.
#[cycle(next_walk_cell_walk_open)]
pub fn walk_cell<C: TriangleCell>(
    c: &C,
    left: u32,
    level: u32,
    stop: u32,
    i: u32,
    j: u32,
    up: bool,
) -> Walk
    requires { Room (triangle C.degree C.degrees C.place) left level i j up (C.values c.now) }
    ensures { result ≡ cell_walk (triangle C.degree C.degrees C.place) left level stop i j up (C.values c.now) }
{
    if !c.passes() {
        return walk_open(c, left, level, stop, i, j, up);
    }
    leaf(level, none_found(), 0)
}
