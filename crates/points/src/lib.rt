// Coordinates as numbers of 64 bits, from the first node, the tests against a limit, and determinants of differences.
#![tactic(auto)]

ghost use Rattle.std.specs.Prelude.{◌≡◌, true, false, [], ◌∷◌, ◌<◌, ◌-ℤ◌, ◌*ℤ◌, length};
ghost use Rattle.algebra.specs.Within.{Within, Each};
ghost use Rattle.element.specs.Control.{at};
ghost use Rattle.element.specs.Origin as origin;
ghost use Rattle.element.specs.Origin.{from_first, Held, Unheld};
ghost use Rattle.element.specs.Refusals.{Beyond, Astray};
ghost use Rattle.points.specs.Points as spec;

// The coordinate at place k; past the end stands 0.
pub fn coord(xs: &[i32], k: usize) -> i64
    ensures value { result ≡ at xs.now k }
    ensures small { Within 2147483648 result }
    ensures held { Held (at xs.now k) }
{
    if k < xs.len() {
        return xs[k] as i64;
    }
    0
}

// The coordinate at place k minus a number, which takes 33 bits; past the end stands 0.
pub fn less(xs: &[i32], k: usize, from: i64) -> i64
    requires { Within 2147483648 from }
    ensures value { result ≡ spec.less xs.now k from }
    ensures held { Held (at xs.now k) }
    ensures size { Within 4294967296 result }
{
    if k < xs.len() {
        return xs[k] as i64 - from;
    }
    0
}

// Of a number for x and one for y the one for place k.
fn by_axis(x: i64, y: i64, k: usize) -> i64
    ensures { result ≡ origin.by_axis x y k }
{
    if k % 2 == 0 {
        return x;
    }
    y
}

// The place in the list of node k: from the gap on, nodes stand one earlier.
fn place(gap: usize, k: usize) -> usize
    requires { 0 < gap }
    ensures { result ≡ spec.place gap k }
{
    if k < gap {
        return k;
    }
    k - 1
}

// The first or the second coordinates of nine nodes, from the first one; a tenth place, which ten nodes need, has 0.
pub fn coordinates(xs: &[i32], gap: usize, axis: usize) -> [i64; 10]
    requires { (0 < gap) × (axis < 2) }
    ensures { result ≡ spec.coordinates (from_first xs.now) gap axis }
{
    let from = coord(xs, axis);
    let mut c = [0; 10];
    for k in 0..9 {
        let at = place(gap, k);
        c[k] = less(xs, 2 * at + axis, from);
    }
    c[9] = 0;
    c
}

// Whether all coordinates are within the limit in size, without a branch on a coordinate.
pub fn within(xs: &[i32], limit: u32) -> bool
    requires { limit < 2147483648 }
    ensures yes { result ≡ true → Each limit xs.now }
    ensures no { result ≡ false → Beyond limit xs.now }
{
    let most = limit as i32;
    let least = 0 - most;
    let mut all = true;
    for x in xs {
        all = all & (*x <= most) & (least <= *x);
    }
    all
}

// The same of each node's difference from the first node.
fn near(xs: &[i32], limit: u32) -> bool
    ensures yes { result ≡ true → Each limit (from_first xs.now) }
    ensures no { result ≡ false → Beyond limit (from_first xs.now) }
    ensures held { ¬ Unheld xs.now }
{
    let most = limit as i64;
    let least = 0 - most;
    let x = coord(xs, 0);
    let y = coord(xs, 1);
    let mut close = true;
    for i in 0..xs.len() {
        let d = less(xs, i, by_axis(x, y, i));
        close = close & (d <= most) & (least <= d);
    }
    close
}

// Whether all coordinates are within the limit, as they stand or from the first node.
pub fn ranged(xs: &[i32], limit: u32) -> bool
    requires { limit < 2147483648 }
    ensures yes { result ≡ true → ¬ Astray limit xs.now }
    ensures no { result ≡ false → Astray limit xs.now }
{
    if within(xs, limit) {
        return true;
    }
    near(xs, limit)
}

// The number at place k; past the end stands 0.
pub fn pick(p: &[i64; 10], k: usize) -> i64
    requires { length p.now ≡ 10 }
    ensures { result ≡ at p.now k }
{
    if k < 10 {
        return p[k];
    }
    0
}

// The difference from the point a to the point b, along one coordinate.
pub fn step(p: &[i64; 10], a: usize, b: usize) -> i64
    requires { spec.Ten 786432 p.now }
    ensures { result ≡ spec.step p.now a b }
{
    pick(p, b) - pick(p, a)
}

// The determinant of two vectors, (a, b) and (c, d).
pub fn det(a: i64, b: i64, c: i64, d: i64) -> i64
    requires { Each 1572864 (a ∷ b ∷ c ∷ d ∷ []) }
    ensures { result ≡ a *ℤ d -ℤ b *ℤ c }
{
    a * d - b * c
}

// The determinant of the differences from a to b and from c to d, of the points with the coordinates x and y.
pub fn across(x: &[i64; 10], y: &[i64; 10], a: usize, b: usize, c: usize, d: usize) -> i64
    requires first { spec.Ten 786432 x.now }
    requires second { spec.Ten 786432 y.now }
    ensures { result ≡ spec.across x.now y.now a b c d }
{
    det(step(x, a, b), step(y, a, b), step(x, c, d), step(y, c, d))
}

// A net of points of the plane, by their coordinates along x and along y, which are small.
#[derive(Clone, Copy)]
pub struct Net {
    pub x: [i64; 10],
    pub y: [i64; 10],
    ghost along_x: { spec.Ten 786432 x },
    ghost along_y: { spec.Ten 786432 y },
}

impl Net {
    // The difference from the point a to the point b, along x.
    pub fn step_x(&self, a: usize, b: usize) -> i64
        ensures { result ≡ spec.step self.now.x a b }
    {
        step(&self.x, a, b)
    }

    // The same along y.
    pub fn step_y(&self, a: usize, b: usize) -> i64
        ensures { result ≡ spec.step self.now.y a b }
    {
        step(&self.y, a, b)
    }

    // The determinant of the differences from a to b and from c to d.
    pub fn across(&self, a: usize, b: usize, c: usize, d: usize) -> i64
        ensures { result ≡ spec.across self.now.x self.now.y a b c d }
    {
        across(&self.x, &self.y, a, b, c, d)
    }
}
