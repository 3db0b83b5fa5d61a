// Control values of a ten-node triangle: value (I, J, K) is 12/(4!/(I!J!K!)) times the sum, over i1+i2 = I, j1+j2 = J, k1+k2 = K, of
// 2!/(i1!j1!k1!)·2!/(i2!j2!k2!)·det(R(i1,j1+1,k1) - R(i1+1,j1,k1), R(i2,j2,k2+1) - R(i2+1,j2,k2)). Control points stand by rising k,
// then rising j.
#![tactic(auto)]

ghost use Rattle.std.specs.Prelude.{◌≡◌, [], ◌+◌, ◌/◌, ◌≤◌, ◌<◌, pos, get_or};
ghost use Rattle.algebra.specs.Within.{Within};
ghost use Rattle.forms.specs.Binomials as binomials;
ghost use Rattle.forms.specs.Triangles.{degrees10};
ghost use Rattle.element.specs.Kinds.{ten};
ghost use Rattle.element.specs.Cubic as cubic;
ghost use Rattle.element.specs.Origin.{from_first, Inside};
ghost use Rattle.points.specs.Points.{Ten};
ghost use Rattle.cubic.specs.Points as spec;

use points::{across, coord, coordinates, less, pick};

// Pascal's triangle.
const PASCAL: [[u8; 5]; 5] = [
    [1, 0, 0, 0, 0],
    [1, 1, 0, 0, 0],
    [1, 2, 1, 0, 0],
    [1, 3, 3, 1, 0],
    [1, 4, 6, 4, 1],
];

// The degrees I, J, K of each value: "listed by rising K, then rising J".
const DEGREES: [[usize; 3]; 15] = [
    [4, 0, 0],
    [3, 1, 0],
    [2, 2, 0],
    [1, 3, 0],
    [0, 4, 0],
    [3, 0, 1],
    [2, 1, 1],
    [1, 2, 1],
    [0, 3, 1],
    [2, 0, 2],
    [1, 1, 2],
    [0, 2, 2],
    [1, 0, 3],
    [0, 1, 3],
    [0, 0, 4],
];

fn wide(x: u8) -> u64
    ensures { result ≡ x }
{
    x as u64
}

// C(n, k).
fn choose(n: usize, k: usize) -> u64
    requires { (n < 5) × (k < 5) }
    ensures { result ≡ binomials.choose n k }
{
    let row = PASCAL[n];
    wide(row[k])
}

// (i+j+k)!/(i!j!k!).
fn multinomial(i: usize, j: usize, k: usize) -> u64
    requires { i + j + k < 5 }
    ensures rule { result ≡ binomials.multinomial i j k }
    ensures small { (0 < result) × (result ≤ 12) }
{
    choose(i + j + k, i) * choose(j + k, j)
}

// The degrees of value n.
fn degrees(n: usize) -> [usize; 3]
    requires { n < 15 }
    ensures { result ≡ get_or degrees10 n [] }
{
    DEGREES[n]
}

// Where the control point (i, j, k) stands.
fn spot(j: usize, k: usize) -> usize
    requires { (j < 5) × (k < 5) }
    ensures { result ≡ spec.spot j k }
{
    k * (9 - k) / 2 + j
}

// The first or the second coordinates of the ten nodes, from the first one.
fn nodes(xs: &[i32], axis: usize) -> [i64; 10]
    requires { axis < 2 }
    ensures { result ≡ spec.nodes (from_first xs.now) axis }
{
    let mut n = coordinates(xs, 9, axis);
    n[9] = less(xs, 18 + axis, coord(xs, axis));
    n
}

// Twelve times the control point next to a on the edge from a to b with the nodes m, o, along one coordinate.
fn beside(n: &[i64; 10], a: usize, m: usize, o: usize, b: usize) -> i64
    requires { Ten 2048 n.now }
    ensures { result ≡ spec.beside n.now a m o b }
{
    2 * (18 * pick(n, m) - 5 * pick(n, a) - 9 * pick(n, o) + 2 * pick(n, b))
}

// The sum of the corners.
fn corners(n: &[i64; 10]) -> i64
    requires { Ten 2048 n.now }
    ensures { result ≡ spec.corners n.now }
{
    pick(n, 0) + pick(n, 1) + pick(n, 2)
}

// The sum of the edge nodes.
fn edges(n: &[i64; 10]) -> i64
    requires { Ten 2048 n.now }
    ensures { result ≡ spec.edges n.now }
{
    pick(n, 3) + pick(n, 4) + pick(n, 5) + pick(n, 6) + pick(n, 7) + pick(n, 8)
}

// Twelve times the inner control point.
fn inner(n: &[i64; 10]) -> i64
    requires { Ten 2048 n.now }
    ensures { result ≡ spec.inner n.now }
{
    54 * pick(n, 9) + 4 * corners(n) - 9 * edges(n)
}

// Twelve times the control points, along one coordinate.
fn points10(n: &[i64; 10]) -> [i64; 10]
    requires { Ten 2048 n.now }
    ensures { result ≡ spec.points10 n.now }
{
    let r210 = beside(n, 0, 3, 4, 1);
    let r120 = beside(n, 1, 4, 3, 0);
    let r201 = beside(n, 0, 8, 7, 2);
    let r111 = inner(n);
    let r021 = beside(n, 1, 5, 6, 2);
    let r102 = beside(n, 2, 7, 8, 0);
    let r012 = beside(n, 2, 6, 5, 1);
    [
        12 * n[0],
        r210,
        r120,
        12 * n[1],
        r201,
        r111,
        r021,
        r102,
        r012,
        12 * n[2],
    ]
}

// stays (5): (b) over a `Net` the compiler no longer knows the indices of the terms, and the values take five times the instructions.
// The term of value (i, j, k) with these indices: 0 where they do not add up to i, j, k.
fn term(
    x: &[i64; 10],
    y: &[i64; 10],
    i: usize,
    j: usize,
    k: usize,
    i1: usize,
    j1: usize,
    k1: usize,
    i2: usize,
    j2: usize,
    k2: usize,
) -> i64
    requires first { Ten 786432 x.now }
    requires second { Ten 786432 y.now }
    requires places { (i1 + j1 + k1 ≡ 2) × (i2 + j2 + k2 ≡ 2) }
    ensures rule { result ≡ cubic.term10 (spec.grid x.now y.now) i j k i1 j1 k1 i2 j2 k2 }
    ensures small { Within 712483534798848 result }
{
    if i1 + i2 != i {
        return 0;
    }
    if j1 + j2 != j {
        return 0;
    }
    if k1 + k2 != k {
        return 0;
    }
    let m = multinomial(i1, j1, k1) * multinomial(i2, j2, k2);
    let d = across(
        x,
        y,
        spot(j1, k1),
        spot(j1 + 1, k1),
        spot(j2, k2),
        spot(j2, k2 + 1),
    );
    (m as i64) * d
}

// All terms of value (i, j, k) with these i1, j1, k1.
fn row(
    x: &[i64; 10],
    y: &[i64; 10],
    i: usize,
    j: usize,
    k: usize,
    i1: usize,
    j1: usize,
    k1: usize,
) -> i64
    requires first { Ten 786432 x.now }
    requires second { Ten 786432 y.now }
    requires places { i1 + j1 + k1 ≡ 2 }
    ensures rule { result ≡ spec.row x.now y.now i j k i1 j1 k1 }
    ensures small { Within 4274901208793088 result }
{
    let a = term(x, y, i, j, k, i1, j1, k1, 0, 0, 2);
    let b = term(x, y, i, j, k, i1, j1, k1, 0, 1, 1);
    let c = term(x, y, i, j, k, i1, j1, k1, 0, 2, 0);
    let d = term(x, y, i, j, k, i1, j1, k1, 1, 0, 1);
    let e = term(x, y, i, j, k, i1, j1, k1, 1, 1, 0);
    let f = term(x, y, i, j, k, i1, j1, k1, 2, 0, 0);
    a + b + c + d + e + f
}

// What value (i, j, k) multiplies its sum by.
// stays (2): that of a quad is by binomials and 9, with another contract; so are `choose` (to 2, and to 3) and `term`.
fn weight(i: usize, j: usize, k: usize) -> i64
    requires { i + j + k < 5 }
    ensures { result ≡ pos (12 / binomials.multinomial i j k) }
{
    (12 / multinomial(i, j, k)) as i64
}

// The value (i, j, k), from the points along x and along y.
fn value(x: &[i64; 10], y: &[i64; 10], i: usize, j: usize, k: usize) -> i64
    requires first { Ten 786432 x.now }
    requires second { Ten 786432 y.now }
    requires places { i + j + k ≡ 4 }
    ensures { result ≡ cubic.value10 (spec.grid x.now y.now) i j k }
{
    let a = row(x, y, i, j, k, 0, 0, 2);
    let b = row(x, y, i, j, k, 0, 1, 1);
    let c = row(x, y, i, j, k, 0, 2, 0);
    let d = row(x, y, i, j, k, 1, 0, 1);
    let e = row(x, y, i, j, k, 1, 1, 0);
    let f = row(x, y, i, j, k, 2, 0, 0);
    weight(i, j, k) * (a + b + c + d + e + f)
}

// The fifteen values.
fn combine(x: &[i64; 10], y: &[i64; 10]) -> [i64; 15]
    requires first { Ten 786432 x.now }
    requires second { Ten 786432 y.now }
    ensures { result ≡ spec.combine10 x.now y.now }
{
    let mut c = [0; 15];
    for n in 0..15 {
        let d = degrees(n);
        c[n] = value(x, y, d[0], d[1], d[2]);
    }
    c
}

// The fifteen control values of a ten-node triangle.
pub fn values(xs: &[i32]) -> [i64; 15]
    requires { Inside ten xs.now }
    ensures { result ≡ cubic.values10 xs.now }
{
    let x = points10(&nodes(xs, 0));
    let y = points10(&nodes(xs, 1));
    combine(&x, &y)
}
