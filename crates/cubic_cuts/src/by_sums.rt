// The quarters of a cell of a ten-node triangle by sums, as the walk cuts it: "V0 E01 E02; E01 V1 E12; E02 E12 V2; E12 E02 E01", in
// doubled weights, with no product but by powers of two. The value v310 of a cell is the form at V0 V0 V0 V1, and so on.
ghost use Rattle.std.specs.Prelude.{◌≡◌, [], ◌∷◌, ◌<◌, ◌+ℤ◌};
ghost use Rattle.algebra.specs.Within.{Each};
ghost use Rattle.forms.specs.Cuttings.{first, fourth, four_of};
ghost use Rattle.forms.specs.Shapes.{cut_to};
ghost use Rattle.forms.specs.Triangles.{ten};
ghost use Rattle.cubic_cuts.specs.Lines.{lean, list2, list3, list4, list5};
ghost use Rattle.cubic_cuts.specs.Cells.{values2, values3, values4, degree2, degree3, taken, places};
ghost use Rattle.cubic_cuts.specs.Cells as cells;

// Two values of a line.
// stays (2): a line of N values leans by one of N - 1, and a const argument can't be computed; so do the forms of degree 2, 3 and 4.
#[derive(Clone, Copy)]
pub struct Line2 {
    pub a: i64,
    pub b: i64,
}

// Three values of a line.
#[derive(Clone, Copy)]
pub struct Line3 {
    pub a: i64,
    pub b: i64,
    pub c: i64,
}

// Four values of a line.
#[derive(Clone, Copy)]
pub struct Line4 {
    pub a: i64,
    pub b: i64,
    pub c: i64,
    pub d: i64,
}

// Five values of a line.
#[derive(Clone, Copy)]
pub struct Line5 {
    pub a: i64,
    pub b: i64,
    pub c: i64,
    pub d: i64,
    pub e: i64,
}

// The six values of a form of degree 2.
#[derive(Clone, Copy)]
pub struct Cell2 {
    pub v200: i64,
    pub v110: i64,
    pub v020: i64,
    pub v101: i64,
    pub v011: i64,
    pub v002: i64,
}

// The ten values of a form of degree 3.
#[derive(Clone, Copy)]
pub struct Cell3 {
    pub v300: i64,
    pub v210: i64,
    pub v120: i64,
    pub v030: i64,
    pub v201: i64,
    pub v111: i64,
    pub v021: i64,
    pub v102: i64,
    pub v012: i64,
    pub v003: i64,
}

// The fifteen values of a cell, a form of degree 4.
#[derive(Clone, Copy)]
pub struct Cell4 {
    pub v400: i64,
    pub v310: i64,
    pub v220: i64,
    pub v130: i64,
    pub v040: i64,
    pub v301: i64,
    pub v211: i64,
    pub v121: i64,
    pub v031: i64,
    pub v202: i64,
    pub v112: i64,
    pub v022: i64,
    pub v103: i64,
    pub v013: i64,
    pub v004: i64,
}

// Two values of a line, leaned to the first: it, and the sum of both. Of values within 2^61 they are within 2^62.
fn lean2(a: i64, b: i64) -> Line2
    requires { Each 2305843009213693952 (a ∷ b ∷ []) }
    ensures { list2 result ≡ lean ◌+ℤ◌ 2 (a ∷ b ∷ []) }
{
    Line2 { a: a, b: a + b }
}

// Three values of a line, leaned to the first: it, and the sums of neighbours, leaned. Of values within 2^60 they are within 2^62.
fn lean3(a: i64, b: i64, c: i64) -> Line3
    requires { Each 1152921504606846976 (a ∷ b ∷ c ∷ []) }
    ensures { list3 result ≡ lean ◌+ℤ◌ 3 (a ∷ b ∷ c ∷ []) }
{
    let r = lean2(a + b, b + c);
    Line3 {
        a: a,
        b: r.a,
        c: r.b,
    }
}

// Four values of a line, leaned to the first: it, and the sums of neighbours, leaned. Of values within 2^59 they are within 2^62.
fn lean4(a: i64, b: i64, c: i64, d: i64) -> Line4
    requires { Each 576460752303423488 (a ∷ b ∷ c ∷ d ∷ []) }
    ensures { list4 result ≡ lean ◌+ℤ◌ 4 (a ∷ b ∷ c ∷ d ∷ []) }
{
    let r = lean3(a + b, b + c, c + d);
    Line4 {
        a: a,
        b: r.a,
        c: r.b,
        d: r.c,
    }
}

// Five values of a line, leaned to the first: it, and the sums of neighbours, leaned. Of values within 2^58 they are within 2^62.
fn lean5(a: i64, b: i64, c: i64, d: i64, e: i64) -> Line5
    requires { Each 288230376151711744 (a ∷ b ∷ c ∷ d ∷ e ∷ []) }
    ensures { list5 result ≡ lean ◌+ℤ◌ 5 (a ∷ b ∷ c ∷ d ∷ e ∷ []) }
{
    let r = lean4(a + b, b + c, c + d, d + e);
    Line5 {
        a: a,
        b: r.a,
        c: r.b,
        d: r.c,
        e: r.d,
    }
}

// The quarter of a cell at its first corner, V0 E01 E02. Its rows from V0 to V1, leaned to V0, have E01 for V1, and the columns of those
// from V0 to V2, leaned to V0, have E02 for V2; each V0 that is left counts twice. Of values within 2^58 it has values within 2^62.
fn at_first(c: Cell4) -> Cell4
    requires { Each 288230376151711744 (values4 c) }
    ensures { values4 result ≡ cut_to ten first (values4 c) }
{
    let p = lean5(c.v400, c.v310, c.v220, c.v130, c.v040);
    let q = lean4(c.v301, c.v211, c.v121, c.v031);
    let r = lean3(c.v202, c.v112, c.v022);
    let s = lean2(c.v103, c.v013);
    let t = lean5(p.a, q.a, r.a, s.a, c.v004);
    let u = lean4(p.b, q.b, r.b, s.b);
    let v = lean3(p.c, q.c, r.c);
    let w = lean2(p.d, q.d);
    Cell4 {
        v400: 16 * t.a,
        v310: 8 * u.a,
        v220: 4 * v.a,
        v130: 2 * w.a,
        v040: p.e,
        v301: 8 * t.b,
        v211: 4 * u.b,
        v121: 2 * v.b,
        v031: w.b,
        v202: 4 * t.c,
        v112: 2 * u.c,
        v022: v.c,
        v103: 2 * t.d,
        v013: u.d,
        v004: t.e,
    }
}

// The middle quarter of a form of degree 2, E12 E02 E01. Its values with no E12 are those of rows and columns leaned to V0; for the
// others x, y and z are the form of degree 1 that has E12 for one corner. Of values within 2^60 it has values within 2^62.
fn middle2(v200: i64, v110: i64, v020: i64, v101: i64, v011: i64, v002: i64) -> Cell2
    requires { Each 1152921504606846976 (v200 ∷ v110 ∷ v020 ∷ v101 ∷ v011 ∷ v002 ∷ []) }
    ensures { values2 result ≡ cut_to degree2 fourth (v200 ∷ v110 ∷ v020 ∷ v101 ∷ v011 ∷ v002 ∷ []) }
{
    let x = v110 + v101;
    let y = v020 + v011;
    let z = v011 + v002;
    let yz = y + z;
    let xz = x + z;
    let xy = x + y;
    let p = lean3(v200, v110, v020);
    let q = lean2(v101, v011);
    let r = lean3(p.a, q.a, v002);
    let s = lean2(p.b, q.b);
    Cell2 {
        v200: yz,
        v110: xz,
        v020: r.c,
        v101: xy,
        v011: s.b,
        v002: p.c,
    }
}

// The middle quarter of a form of degree 3, in the same way: m is that of the form of degree 2 that has E12 for one corner. Of values
// within 2^59 it has values within 2^62.
fn middle3(
    v300: i64,
    v210: i64,
    v120: i64,
    v030: i64,
    v201: i64,
    v111: i64,
    v021: i64,
    v102: i64,
    v012: i64,
    v003: i64,
) -> Cell3
    requires { Each 576460752303423488 (v300 ∷ v210 ∷ v120 ∷ v030 ∷ v201 ∷ v111 ∷ v021 ∷ v102 ∷ v012 ∷ v003 ∷ []) }
    ensures { values3 result ≡ cut_to degree3 fourth (v300 ∷ v210 ∷ v120 ∷ v030 ∷ v201 ∷ v111 ∷ v021 ∷ v102 ∷ v012 ∷ v003 ∷ []) }
{
    let m = middle2(
        v210 + v201,
        v120 + v111,
        v030 + v021,
        v111 + v102,
        v021 + v012,
        v012 + v003,
    );
    let p = lean4(v300, v210, v120, v030);
    let q = lean3(v201, v111, v021);
    let r = lean2(v102, v012);
    let t = lean4(p.a, q.a, r.a, v003);
    let u = lean3(p.b, q.b, r.b);
    let v = lean2(p.c, q.c);
    Cell3 {
        v300: m.v200,
        v210: m.v110,
        v120: m.v020,
        v030: t.d,
        v201: m.v101,
        v111: m.v011,
        v021: u.c,
        v102: m.v002,
        v012: v.b,
        v003: p.d,
    }
}

// The middle quarter of a cell, in the same way: m is that of the form of degree 3 that has E12 for one corner, and its edge from E02 to
// E01 is that of the quarter at the first corner. Of values within 2^58 it has values within 2^62.
fn middle4(c: Cell4) -> Cell4
    requires { Each 288230376151711744 (values4 c) }
    ensures { values4 result ≡ cut_to ten fourth (values4 c) }
{
    let m = middle3(
        c.v310 + c.v301,
        c.v220 + c.v211,
        c.v130 + c.v121,
        c.v040 + c.v031,
        c.v211 + c.v202,
        c.v121 + c.v112,
        c.v031 + c.v022,
        c.v112 + c.v103,
        c.v022 + c.v013,
        c.v013 + c.v004,
    );
    let f = at_first(c);
    Cell4 {
        v400: m.v300,
        v310: m.v210,
        v220: m.v120,
        v130: m.v030,
        v040: f.v004,
        v301: m.v201,
        v211: m.v111,
        v121: m.v021,
        v031: f.v013,
        v202: m.v102,
        v112: m.v012,
        v022: f.v022,
        v103: m.v003,
        v013: f.v031,
        v004: f.v040,
    }
}

// The same cell from its second corner on: its corners are V1 V2 V0.
fn turned(c: Cell4) -> Cell4
    ensures { result ≡ cells.turned c }
{
    Cell4 {
        v400: c.v040,
        v310: c.v031,
        v220: c.v022,
        v130: c.v013,
        v040: c.v004,
        v301: c.v130,
        v211: c.v121,
        v121: c.v112,
        v031: c.v103,
        v202: c.v220,
        v112: c.v211,
        v022: c.v202,
        v103: c.v310,
        v013: c.v301,
        v004: c.v400,
    }
}

// Quarter i of a cell. That at another corner is that at the first of the cell turned, and turned back.
fn quarter(c: Cell4, i: u8) -> Cell4
    requires { (i < 4) × Each 288230376151711744 (values4 c) }
    ensures { values4 result ≡ cut_to ten (four_of i) (values4 c) }
{
    if i == 0 {
        return at_first(c);
    }
    if i == 1 {
        return turned(turned(at_first(turned(c))));
    }
    if i == 2 {
        return turned(at_first(turned(turned(c))));
    }
    middle4(c)
}

// The values of a cell by their names.
fn named(c: &[i64; 15]) -> Cell4
    requires { Each 288230376151711744 c.now }
    ensures { values4 result ≡ taken places c.now }
{
    Cell4 {
        v400: c[0],
        v310: c[1],
        v220: c[2],
        v130: c[3],
        v040: c[4],
        v301: c[5],
        v211: c[6],
        v121: c[7],
        v031: c[8],
        v202: c[9],
        v112: c[10],
        v022: c[11],
        v103: c[12],
        v013: c[13],
        v004: c[14],
    }
}

// The values of a cell in their order.
fn listed(c: Cell4) -> [i64; 15]
    requires { Each 4611686018427387904 (values4 c) }
    ensures { result ≡ values4 c }
{
    [
        c.v400, c.v310, c.v220, c.v130, c.v040, c.v301, c.v211, c.v121, c.v031, c.v202, c.v112,
        c.v022, c.v103, c.v013, c.v004,
    ]
}

// Quarter i of a cell. Of values within 2^58 it has values within 2^62.
pub fn split(c: &[i64; 15], i: u8) -> [i64; 15]
    requires { (i < 4) × Each 288230376151711744 c.now }
    ensures { result ≡ cut_to ten (four_of i) c.now }
{
    listed(quarter(named(c), i))
}
