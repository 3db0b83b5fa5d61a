// The quarters of a quad cell by a table, its sign test and its first bad corner; its halves stand in `by_halves`.
#![tactic(auto)]

pub mod by_halves;

ghost use Rattle.std.specs.Prelude.{◌≡◌, ◌+◌, ◌<◌, T};
ghost use Rattle.algebra.specs.Within.{Each};
ghost use Rattle.forms.specs.Cells.{positives, rows_add};
ghost use Rattle.forms.specs.Cuttings.{four_of};
ghost use Rattle.forms.specs.Shapes.{tips, pass, cut_to};
ghost use Rattle.forms.specs.Quads.{quad};
ghost use Rattle.quad_cuts.specs.Corners.{first_bad};

use cells::{by_rows, none_negative};
use corners::{First, better, corner};

// "As a table, the four quarter tables hold 1,024 whole numbers; every row adds to 64. Quarters run lower-left, lower-right,
// upper-left, upper-right." Beside each row stand its quarter and the place (a, b) of the new value; the weights stand in the
// order of the old values, (I, J) at I + 4J.
const QUARTERS: [[[u8; 16]; 16]; 4] = [
    [
        [64, 0, 0, 0, 0, 0, 0, 0, 0, 0, 0, 0, 0, 0, 0, 0], // 0: 0 0
        [32, 32, 0, 0, 0, 0, 0, 0, 0, 0, 0, 0, 0, 0, 0, 0], // 0: 1 0
        [16, 32, 16, 0, 0, 0, 0, 0, 0, 0, 0, 0, 0, 0, 0, 0], // 0: 2 0
        [8, 24, 24, 8, 0, 0, 0, 0, 0, 0, 0, 0, 0, 0, 0, 0], // 0: 3 0
        [32, 0, 0, 0, 32, 0, 0, 0, 0, 0, 0, 0, 0, 0, 0, 0], // 0: 0 1
        [16, 16, 0, 0, 16, 16, 0, 0, 0, 0, 0, 0, 0, 0, 0, 0], // 0: 1 1
        [8, 16, 8, 0, 8, 16, 8, 0, 0, 0, 0, 0, 0, 0, 0, 0], // 0: 2 1
        [4, 12, 12, 4, 4, 12, 12, 4, 0, 0, 0, 0, 0, 0, 0, 0], // 0: 3 1
        [16, 0, 0, 0, 32, 0, 0, 0, 16, 0, 0, 0, 0, 0, 0, 0], // 0: 0 2
        [8, 8, 0, 0, 16, 16, 0, 0, 8, 8, 0, 0, 0, 0, 0, 0], // 0: 1 2
        [4, 8, 4, 0, 8, 16, 8, 0, 4, 8, 4, 0, 0, 0, 0, 0], // 0: 2 2
        [2, 6, 6, 2, 4, 12, 12, 4, 2, 6, 6, 2, 0, 0, 0, 0], // 0: 3 2
        [8, 0, 0, 0, 24, 0, 0, 0, 24, 0, 0, 0, 8, 0, 0, 0], // 0: 0 3
        [4, 4, 0, 0, 12, 12, 0, 0, 12, 12, 0, 0, 4, 4, 0, 0], // 0: 1 3
        [2, 4, 2, 0, 6, 12, 6, 0, 6, 12, 6, 0, 2, 4, 2, 0], // 0: 2 3
        [1, 3, 3, 1, 3, 9, 9, 3, 3, 9, 9, 3, 1, 3, 3, 1], // 0: 3 3
    ],
    [
        [8, 24, 24, 8, 0, 0, 0, 0, 0, 0, 0, 0, 0, 0, 0, 0], // 1: 0 0
        [0, 16, 32, 16, 0, 0, 0, 0, 0, 0, 0, 0, 0, 0, 0, 0], // 1: 1 0
        [0, 0, 32, 32, 0, 0, 0, 0, 0, 0, 0, 0, 0, 0, 0, 0], // 1: 2 0
        [0, 0, 0, 64, 0, 0, 0, 0, 0, 0, 0, 0, 0, 0, 0, 0], // 1: 3 0
        [4, 12, 12, 4, 4, 12, 12, 4, 0, 0, 0, 0, 0, 0, 0, 0], // 1: 0 1
        [0, 8, 16, 8, 0, 8, 16, 8, 0, 0, 0, 0, 0, 0, 0, 0], // 1: 1 1
        [0, 0, 16, 16, 0, 0, 16, 16, 0, 0, 0, 0, 0, 0, 0, 0], // 1: 2 1
        [0, 0, 0, 32, 0, 0, 0, 32, 0, 0, 0, 0, 0, 0, 0, 0], // 1: 3 1
        [2, 6, 6, 2, 4, 12, 12, 4, 2, 6, 6, 2, 0, 0, 0, 0], // 1: 0 2
        [0, 4, 8, 4, 0, 8, 16, 8, 0, 4, 8, 4, 0, 0, 0, 0], // 1: 1 2
        [0, 0, 8, 8, 0, 0, 16, 16, 0, 0, 8, 8, 0, 0, 0, 0], // 1: 2 2
        [0, 0, 0, 16, 0, 0, 0, 32, 0, 0, 0, 16, 0, 0, 0, 0], // 1: 3 2
        [1, 3, 3, 1, 3, 9, 9, 3, 3, 9, 9, 3, 1, 3, 3, 1], // 1: 0 3
        [0, 2, 4, 2, 0, 6, 12, 6, 0, 6, 12, 6, 0, 2, 4, 2], // 1: 1 3
        [0, 0, 4, 4, 0, 0, 12, 12, 0, 0, 12, 12, 0, 0, 4, 4], // 1: 2 3
        [0, 0, 0, 8, 0, 0, 0, 24, 0, 0, 0, 24, 0, 0, 0, 8], // 1: 3 3
    ],
    [
        [8, 0, 0, 0, 24, 0, 0, 0, 24, 0, 0, 0, 8, 0, 0, 0], // 2: 0 0
        [4, 4, 0, 0, 12, 12, 0, 0, 12, 12, 0, 0, 4, 4, 0, 0], // 2: 1 0
        [2, 4, 2, 0, 6, 12, 6, 0, 6, 12, 6, 0, 2, 4, 2, 0], // 2: 2 0
        [1, 3, 3, 1, 3, 9, 9, 3, 3, 9, 9, 3, 1, 3, 3, 1], // 2: 3 0
        [0, 0, 0, 0, 16, 0, 0, 0, 32, 0, 0, 0, 16, 0, 0, 0], // 2: 0 1
        [0, 0, 0, 0, 8, 8, 0, 0, 16, 16, 0, 0, 8, 8, 0, 0], // 2: 1 1
        [0, 0, 0, 0, 4, 8, 4, 0, 8, 16, 8, 0, 4, 8, 4, 0], // 2: 2 1
        [0, 0, 0, 0, 2, 6, 6, 2, 4, 12, 12, 4, 2, 6, 6, 2], // 2: 3 1
        [0, 0, 0, 0, 0, 0, 0, 0, 32, 0, 0, 0, 32, 0, 0, 0], // 2: 0 2
        [0, 0, 0, 0, 0, 0, 0, 0, 16, 16, 0, 0, 16, 16, 0, 0], // 2: 1 2
        [0, 0, 0, 0, 0, 0, 0, 0, 8, 16, 8, 0, 8, 16, 8, 0], // 2: 2 2
        [0, 0, 0, 0, 0, 0, 0, 0, 4, 12, 12, 4, 4, 12, 12, 4], // 2: 3 2
        [0, 0, 0, 0, 0, 0, 0, 0, 0, 0, 0, 0, 64, 0, 0, 0], // 2: 0 3
        [0, 0, 0, 0, 0, 0, 0, 0, 0, 0, 0, 0, 32, 32, 0, 0], // 2: 1 3
        [0, 0, 0, 0, 0, 0, 0, 0, 0, 0, 0, 0, 16, 32, 16, 0], // 2: 2 3
        [0, 0, 0, 0, 0, 0, 0, 0, 0, 0, 0, 0, 8, 24, 24, 8], // 2: 3 3
    ],
    [
        [1, 3, 3, 1, 3, 9, 9, 3, 3, 9, 9, 3, 1, 3, 3, 1], // 3: 0 0
        [0, 2, 4, 2, 0, 6, 12, 6, 0, 6, 12, 6, 0, 2, 4, 2], // 3: 1 0
        [0, 0, 4, 4, 0, 0, 12, 12, 0, 0, 12, 12, 0, 0, 4, 4], // 3: 2 0
        [0, 0, 0, 8, 0, 0, 0, 24, 0, 0, 0, 24, 0, 0, 0, 8], // 3: 3 0
        [0, 0, 0, 0, 2, 6, 6, 2, 4, 12, 12, 4, 2, 6, 6, 2], // 3: 0 1
        [0, 0, 0, 0, 0, 4, 8, 4, 0, 8, 16, 8, 0, 4, 8, 4], // 3: 1 1
        [0, 0, 0, 0, 0, 0, 8, 8, 0, 0, 16, 16, 0, 0, 8, 8], // 3: 2 1
        [0, 0, 0, 0, 0, 0, 0, 16, 0, 0, 0, 32, 0, 0, 0, 16], // 3: 3 1
        [0, 0, 0, 0, 0, 0, 0, 0, 4, 12, 12, 4, 4, 12, 12, 4], // 3: 0 2
        [0, 0, 0, 0, 0, 0, 0, 0, 0, 8, 16, 8, 0, 8, 16, 8], // 3: 1 2
        [0, 0, 0, 0, 0, 0, 0, 0, 0, 0, 16, 16, 0, 0, 16, 16], // 3: 2 2
        [0, 0, 0, 0, 0, 0, 0, 0, 0, 0, 0, 32, 0, 0, 0, 32], // 3: 3 2
        [0, 0, 0, 0, 0, 0, 0, 0, 0, 0, 0, 0, 8, 24, 24, 8], // 3: 0 3
        [0, 0, 0, 0, 0, 0, 0, 0, 0, 0, 0, 0, 0, 16, 32, 16], // 3: 1 3
        [0, 0, 0, 0, 0, 0, 0, 0, 0, 0, 0, 0, 0, 0, 32, 32], // 3: 2 3
        [0, 0, 0, 0, 0, 0, 0, 0, 0, 0, 0, 0, 0, 0, 0, 64], // 3: 3 3
    ],
];

// stays (2): the tables differ in size, numbers and rule; their sums are one function, `by_rows`.
// The table of quarter i: along each direction the binomial rule, and "the two directions multiply"; "every row adds to 64".
fn table(i: u8) -> [[u8; 16]; 16]
    requires { i < 4 }
    ensures rule { result ≡ quad.table (four_of i) }
    ensures sums { T (rows_add 64 result) }
{
    let q = i as usize;
    QUARTERS[q]
}

// Quarter i of a cell. Of values within 2^56 it has values within 2^62.
pub fn quarter(c: [i64; 16], i: u8) -> [i64; 16]
    requires { (i < 4) × Each 72057594037927936 c }
    ensures { result ≡ cut_to quad (four_of i) c }
{
    by_rows(&table(i), &c)
}

// Whether the corner values are all above zero, without a branch on a value.
pub fn corners_positive(c: &[i64; 16]) -> bool
    ensures { result ≡ positives (tips quad) c.now }
{
    (0 < c[0]) & (0 < c[3]) & (0 < c[12]) & (0 < c[15])
}

// The sign test, without a branch on a value.
pub fn passes(c: &[i64; 16]) -> bool
    ensures { result ≡ pass quad c.now }
{
    corners_positive(c) & none_negative(c)
}

// The first bad corner of the cell of a level whose lower-left corner is the grid point (i, j); all four fit 32 bits.
pub fn first_bad(c: &[i64; 16], level: u32, i: u32, j: u32) -> First
    requires { (i + 1 < 4294967296) × (j + 1 < 4294967296) }
    ensures { result ≡ first_bad c.now level i j }
{
    let p = corner(c[0], level, i, j);
    let q = corner(c[3], level, i + 1, j);
    let r = corner(c[12], level, i, j + 1);
    let s = corner(c[15], level, i + 1, j + 1);
    better(better(better(p, q), r), s)
}
