// The checker of a cell: the cutting that stands in a sheet. It stops at the first byte that cannot be right.
ghost use Rattle.std.specs.Prelude.{◌+◌, ◌≤◌, length, drop};
ghost use Rattle.algebra.specs.Within.{Each};
ghost use Rattle.walks.specs.Room.{cap};
ghost use Rattle.cuttings.specs.Reads.{Reads, InTurn, quarters_from, Checked};
ghost use Rattle.sheet_cells.specs.Either.{shape_by, values_by, growth_by};

use crate::either::{passes, quarter};

// The cutting of a cell that stands in the sheet from the place `at` on, no deeper than `left`: the place after it.
#[cycle(cell_quarters)]
pub fn cell(triangle: bool, c: [i64; 16], left: u32, sheet: &[u8], at: usize) -> Option<usize>
    requires { Each (cap (growth_by triangle) left) (values_by triangle c) }
    ensures { Checked (λ rest. Reads (shape_by triangle) left (values_by triangle c) (drop at sheet.now) rest) sheet.now result }
{
    if sheet.len() <= at {
        return None;
    }
    let byte = sheet[at];
    if byte == 0 {
        if passes(triangle, c) {
            return Some(at + 1);
        }
        return None;
    }
    if byte != 1 {
        return None;
    }
    if left == 0 {
        return None;
    }
    quarters(triangle, c, 0, left - 1, sheet, at + 1)
}

// The cuttings of a cell's quarters from quarter i on, one behind the other.
#[cycle(cell_quarters)]
fn quarters(
    triangle: bool,
    c: [i64; 16],
    i: u8,
    left: u32,
    sheet: &[u8],
    at: usize,
) -> Option<usize>
    requires { (i ≤ 4) × Each (cap (growth_by triangle) (left + 1)) (values_by triangle c) × (at ≤ length sheet.now) }
    ensures { Checked (λ rest. InTurn (shape_by triangle) left (values_by triangle c) (quarters_from i) (drop at sheet.now) rest) sheet.now result }
{
    if i == 4 {
        return Some(at);
    }
    let next = cell(triangle, quarter(triangle, c, i), left, sheet, at)?;
    quarters(triangle, c, i + 1, left, sheet, next)
}
