// The walk over the cells of a quad (01: "A quad cell is halved along u and each half along v"). A half is not a cell: it is
// never tested.
// stays (2): the walk of triangles cuts a cell in four; this one halves it twice, tests no half, and has another chart.
#![tactic(auto)]

ghost use Rattle.std.specs.Prelude.{◌≡◌, false, ◌+◌, ◌*◌, ◌/◌};
ghost use Rattle.forms.specs.Shapes.{pass};
ghost use Rattle.forms.specs.Quads.{quad};
ghost use Rattle.steps.specs.Steps as steps;
ghost use Rattle.walks.specs.Room.{Few};
ghost use Rattle.quad_walk.specs.Walks.{Room, Halfway, cell_walk, half_walk};

use corners::none_found;
use quad_cuts::by_halves::{half_u, half_v};
use quad_cuts::{corners_positive, first_bad, passes};
use steps::{Walk, kept, leaf, lowered, merge};

// The walk of a cell of the level, with its lower left corner at the grid point (i, j): at most `halvings` halvings, two for each
// level, and none below the level `stop`.
#[cycle(next_open_u_walk_u_walk_v)]
pub fn walk_u(c: &[i64; 16], halvings: u32, level: u32, stop: u32, i: u32, j: u32) -> Walk
    requires { (halvings ≡ 2 * (halvings / 2)) × Room (halvings / 2) level i j c.now }
    ensures { result ≡ cell_walk (halvings / 2) level stop i j c.now }
{
    if !passes(c) {
        return open_u(c, halvings, level, stop, i, j);
    }
    leaf(level, none_found(), 0)
}

// A walk w, and after it that of a cell of the level, to the limit that w leaves. A cell that passes is tested here, without a call.
#[cycle(next_open_u_walk_u_walk_v)]
fn next(w: Walk, c: &[i64; 16], halvings: u32, level: u32, stop: u32, i: u32, j: u32) -> Walk
    requires { Few 3145728 w × (halvings ≡ 2 * (halvings / 2)) × Room (halvings / 2) level i j c.now }
    ensures { result ≡ steps.merge w (cell_walk (halvings / 2) level (steps.lowered stop w.best) i j c.now) }
{
    let limit = lowered(stop, w);
    if passes(c) {
        return kept(w, level);
    }
    merge(w, open_u(c, halvings, level, limit, i, j))
}

// The walk of a cell that does not pass: of its two halves along u.
#[cycle(next_open_u_walk_u_walk_v)]
fn open_u(c: &[i64; 16], halvings: u32, level: u32, stop: u32, i: u32, j: u32) -> Walk
    requires { (pass quad c.now ≡ false) × (halvings ≡ 2 * (halvings / 2)) × Room (halvings / 2) level i j c.now }
    ensures { result ≡ cell_walk (halvings / 2) level stop i j c.now }
{
    if !corners_positive(c) | (stop <= level) | (halvings == 0) {
        return leaf(level, first_bad(c, level, i, j), 1);
    }
    let left = halvings - 1;
    let l = level + 1;
    let x = 2 * i;
    let y = 2 * j;
    let low = half_u(c, false);
    let high = half_u(c, true);
    let p = walk_v(&low, left, l, stop, x, y);
    let q = walk_v(&high, left, l, lowered(stop, p), x + 1, y);
    merge(p, q)
}

// The walk of a half h along u, of its two halves along v: these are quarters, and cells of the level. The lower one has its lower
// left corner at (i, j).
#[cycle(next_open_u_walk_u_walk_v)]
fn walk_v(h: &[i64; 16], halvings: u32, level: u32, stop: u32, i: u32, j: u32) -> Walk
    requires { (halvings ≡ 2 * (halvings / 2) + 1) × Halfway (halvings / 2) level i j h.now }
    ensures { result ≡ half_walk (halvings / 2) level stop i j h.now }
{
    let left = halvings - 1;
    let low = half_v(h, false);
    let high = half_v(h, true);
    let p = walk_u(&low, left, level, stop, i, j);
    next(p, &high, left, level, stop, i, j + 1)
}
