// The quarters of a triangle cell by a table, its sign test and its first bad corner; the same quarters by sums stand in `by_sums`.
#![tactic(auto)]

pub mod by_sums;

ghost use Rattle.std.specs.Prelude.{◌≡◌, ◌<◌, T};
ghost use Rattle.algebra.specs.Within.{Each};
ghost use Rattle.corners.specs.Triangles.{first_bad};
ghost use Rattle.forms.specs.Cells.{positives, rows_add};
ghost use Rattle.forms.specs.Cuttings.{four_of};
ghost use Rattle.forms.specs.Shapes.{tips, pass, cut_to};
ghost use Rattle.forms.specs.Triangles.{six};

use cells::{by_rows, none_negative};
use corners::{First, better, corner};

// The weights of the values of a cell in those of its quarters: "V0 E01 E02; E01 V1 E12; E02 E12 V2; E12 E02 E01". Beside each
// row stand its quarter and the two corners whose value it gives.
const QUARTERS: [[[u8; 6]; 6]; 4] = [
    [
        [4, 0, 0, 0, 0, 0], // 0: V0 V0
        [1, 1, 0, 2, 0, 0], // 0: E01 E01
        [1, 0, 1, 0, 0, 2], // 0: E02 E02
        [2, 0, 0, 2, 0, 0], // 0: V0 E01
        [1, 0, 0, 1, 1, 1], // 0: E01 E02
        [2, 0, 0, 0, 0, 2], // 0: V0 E02
    ],
    [
        [1, 1, 0, 2, 0, 0], // 1: E01 E01
        [0, 4, 0, 0, 0, 0], // 1: V1 V1
        [0, 1, 1, 0, 2, 0], // 1: E12 E12
        [0, 2, 0, 2, 0, 0], // 1: E01 V1
        [0, 2, 0, 0, 2, 0], // 1: V1 E12
        [0, 1, 0, 1, 1, 1], // 1: E01 E12
    ],
    [
        [1, 0, 1, 0, 0, 2], // 2: E02 E02
        [0, 1, 1, 0, 2, 0], // 2: E12 E12
        [0, 0, 4, 0, 0, 0], // 2: V2 V2
        [0, 0, 1, 1, 1, 1], // 2: E02 E12
        [0, 0, 2, 0, 2, 0], // 2: E12 V2
        [0, 0, 2, 0, 0, 2], // 2: E02 V2
    ],
    [
        [0, 1, 1, 0, 2, 0], // 3: E12 E12
        [1, 0, 1, 0, 0, 2], // 3: E02 E02
        [1, 1, 0, 2, 0, 0], // 3: E01 E01
        [0, 0, 1, 1, 1, 1], // 3: E12 E02
        [1, 0, 0, 1, 1, 1], // 3: E02 E01
        [0, 1, 0, 1, 1, 1], // 3: E12 E01
    ],
];

// The table of quarter i: the form at the quarter's corners, in doubled weights. Each of its rows adds up to 4.
fn table(i: u8) -> [[u8; 6]; 6]
    requires { i < 4 }
    ensures rule { result ≡ six.table (four_of i) }
    ensures sums { T (rows_add 4 result) }
{
    let q = i as usize;
    QUARTERS[q]
}

// Quarter i of a cell. Of values within 2^60 it has values within 2^62.
pub fn quarter(c: [i64; 6], i: u8) -> [i64; 6]
    requires { (i < 4) × Each 1152921504606846976 c }
    ensures { result ≡ cut_to six (four_of i) c }
{
    by_rows(&table(i), &c)
}

// Whether the corner values are all above zero, without a branch on a value.
pub fn corners_positive(c: [i64; 6]) -> bool
    ensures { result ≡ positives (tips six) c }
{
    (0 < c[0]) & (0 < c[1]) & (0 < c[2])
}

// The sign test, without a branch on a value.
pub fn passes(c: [i64; 6]) -> bool
    ensures { result ≡ pass six c }
{
    corners_positive(c) & none_negative(&c)
}

// The first bad corner of a cell of a level, with its corners at the columns xs and the rows ys.
pub fn first_bad(c: [i64; 6], level: u32, xs: [u32; 3], ys: [u32; 3]) -> First
    ensures { result ≡ first_bad (tips six) c level xs ys }
{
    let p = corner(c[0], level, xs[0], ys[0]);
    let q = corner(c[1], level, xs[1], ys[1]);
    let r = corner(c[2], level, xs[2], ys[2]);
    better(better(p, q), r)
}
