// The sign test of a cell of a ten-node triangle and its first bad corner; its quarters stand in `by_sums`.
#![tactic(auto)]

pub mod by_sums;

ghost use Rattle.std.specs.Prelude.{◌≡◌};
ghost use Rattle.forms.specs.Cells.{positives};
ghost use Rattle.forms.specs.Shapes.{tips, pass};
ghost use Rattle.forms.specs.Triangles.{ten};
ghost use Rattle.corners.specs.Triangles.{first_bad};

use cells::none_negative;
use corners::{First, better, corner};

// Whether the corner values are all above zero, without a branch on a value.
pub fn corners_positive(c: &[i64; 15]) -> bool
    ensures { result ≡ positives (tips ten) c.now }
{
    (0 < c[0]) & (0 < c[4]) & (0 < c[14])
}

// The sign test, without a branch on a value.
pub fn passes(c: &[i64; 15]) -> bool
    ensures { result ≡ pass ten c.now }
{
    corners_positive(c) & none_negative(c)
}

// stays (2): that of six values has its corners at other places; `TriangleCell` has both as its method.
// The first bad corner of a cell of a level, with its corners at the columns xs and the rows ys.
pub fn first_bad(c: &[i64; 15], level: u32, xs: [u32; 3], ys: [u32; 3]) -> First
    ensures { result ≡ first_bad (tips ten) c.now level xs ys }
{
    let p = corner(c[0], level, xs[0], ys[0]);
    let q = corner(c[4], level, xs[1], ys[1]);
    let r = corner(c[14], level, xs[2], ys[2]);
    better(better(p, q), r)
}
