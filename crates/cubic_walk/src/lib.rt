// The walk over the cells of a ten-node triangle, of fifteen values: that of any triangle (01: "A cell that does not pass is split in
// four").
#![tactic(auto)]

ghost use Rattle.std.specs.Prelude.{◌≡◌};
ghost use Rattle.forms.specs.Triangles.{ten};
ghost use Rattle.triangle_walk.specs.Walks.{Room, cell_walk};

use steps::Walk;

// The walk of a cell of the level at the grid point (i, j): at most `left` cuts, none below the level `stop`.
pub fn walk_cell(c: &[i64; 15], left: u32, level: u32, stop: u32, i: u32, j: u32, up: bool) -> Walk
    requires { Room ten left level i j up c.now }
    ensures { result ≡ cell_walk ten left level stop i j up c.now }
{
    triangle_walk::walk_cell(c, left, level, stop, i, j, up)
}
