// The halves of a quad cell (01: "A quad cell is halved along u and each half along v"). The half of a half is the table's quarter.
ghost use Rattle.std.specs.Prelude.{◌≡◌, ◌<◌};
ghost use Rattle.algebra.specs.Within.{Each};
ghost use Rattle.quad_cuts.specs.Halves.{half_of, line, Halved, half_u, half_v};

// The four new values of a line.
#[derive(Clone, Copy)]
pub struct Line {
    pub a: i64,
    pub b: i64,
    pub c: i64,
    pub d: i64,
}

// The lower or the upper half of the line of values at i, j, k and l: "Along one direction, with factor 8". Each row of sums stands
// between those before it, and the last is the middle, which both halves have. Of values within 2^59 it has values within 2^62.
fn half(c: &[i64; 16], i: usize, j: usize, k: usize, l: usize, upper: bool) -> Line
    requires places { (i < 16) × (j < 16) × (k < 16) × (l < 16) }
    requires small { Each 576460752303423488 c.now }
    ensures { Halved (half_of upper) (line c.now i j k l) result }
{
    let x = c[i];
    let y = c[j];
    let z = c[k];
    let w = c[l];
    let xy = x + y;
    let yz = y + z;
    let zw = z + w;
    let xyz = xy + yz;
    let yzw = yz + zw;
    let middle = xyz + yzw;
    if upper {
        return Line {
            a: middle,
            b: 2 * yzw,
            c: 4 * zw,
            d: 8 * w,
        };
    }
    Line {
        a: 8 * x,
        b: 4 * xy,
        c: 2 * xyz,
        d: middle,
    }
}

// The lower or the upper half of a cell along u.
pub fn half_u(c: &[i64; 16], upper: bool) -> [i64; 16]
    requires { Each 576460752303423488 c.now }
    ensures { result ≡ half_u (half_of upper) c.now }
{
    let p = half(c, 0, 1, 2, 3, upper);
    let q = half(c, 4, 5, 6, 7, upper);
    let r = half(c, 8, 9, 10, 11, upper);
    let s = half(c, 12, 13, 14, 15, upper);
    [
        p.a, p.b, p.c, p.d, q.a, q.b, q.c, q.d, r.a, r.b, r.c, r.d, s.a, s.b, s.c, s.d,
    ]
}

// The lower or the upper half of a cell, or of a half, along v.
pub fn half_v(c: &[i64; 16], upper: bool) -> [i64; 16]
    requires { Each 576460752303423488 c.now }
    ensures { result ≡ half_v (half_of upper) c.now }
{
    let p = half(c, 0, 4, 8, 12, upper);
    let q = half(c, 1, 5, 9, 13, upper);
    let r = half(c, 2, 6, 10, 14, upper);
    let s = half(c, 3, 7, 11, 15, upper);
    [
        p.a, q.a, r.a, s.a, p.b, q.b, r.b, s.b, p.c, q.c, r.c, s.c, p.d, q.d, r.d, s.d,
    ]
}
