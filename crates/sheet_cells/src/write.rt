// The writer of a cell: the cutting that keeps what passes and cuts any other.
ghost use Rattle.std.specs.Prelude.{◌+◌, ◌≤◌};
ghost use Rattle.algebra.specs.Within.{Each};
ghost use Rattle.forms.specs.Shapes.{pass, cut_to};
ghost use Rattle.text.specs.Writing.{Wrote};
ghost use Rattle.walks.specs.Room.{cap};
ghost use Rattle.cuttings.specs.Bytes.{cutting_bytes, trimmed, bytes_of};
ghost use Rattle.cuttings.specs.Reads.{quarters_from};
ghost use Rattle.sheet_cells.specs.Either.{shape_by, values_by, growth_by};

use crate::either::{passes, quarter};
use text::write::put;

// Writes the cutting of a cell that keeps what passes and cuts any other, at most `left` levels down: the place after it.
#[cycle(cell_quarters)]
pub fn cell(triangle: bool, c: [i64; 16], left: u32, out: &mut [u8], at: usize) -> usize
    requires { Each (cap (growth_by triangle) left) (values_by triangle c) }
    ensures { Wrote out.old at (cutting_bytes (trimmed (pass (shape_by triangle)) (cut_to (shape_by triangle)) left (values_by triangle c))) out.new result }
{
    if passes(triangle, c) | (left == 0) {
        return put(out, at, 0);
    }
    let next = put(out, at, 1);
    quarters(triangle, c, 0, left - 1, out, next)
}

// Writes those of a cell's quarters from quarter i on, one behind the other.
#[cycle(cell_quarters)]
fn quarters(triangle: bool, c: [i64; 16], i: u8, left: u32, out: &mut [u8], at: usize) -> usize
    requires { (i ≤ 4) × Each (cap (growth_by triangle) (left + 1)) (values_by triangle c) }
    ensures { Wrote out.old at (bytes_of (pass (shape_by triangle)) (cut_to (shape_by triangle)) left (values_by triangle c) (quarters_from i)) out.new result }
{
    if i == 4 {
        return at;
    }
    let next = cell(triangle, quarter(triangle, c, i), left, out, at);
    quarters(triangle, c, i + 1, left, out, next)
}
