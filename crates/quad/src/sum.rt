// The control values of a quad from its fourfold control points R, by relation 27 of George, Borouchaki and Barral for degree 2
// (01, "Quad"): value (I, J) is 9/(C(3,I)·C(3,J)) times the sum of
//     C(2,i2)·C(2,j1)·det(α(i1,j1), β(i2,j2))
// over i1+i2 = I and j1+j2 = J, with i1, j2 from 0 to 1 and i2, j1 from 0 to 2. α and β are the paper's Δ1,0 and Δ0,1; its binomials
// C(1,i1) and C(1,j2) are 1. A value is 36 times the paper's coefficient, which has d² = 4 and points R/4: 36 · 4/4² = 9.
ghost use Rattle.std.specs.Prelude.{◌≡◌, [], ◌∷◌, ◌+◌, ◌*◌, ◌/◌, ◌≤◌, ◌<◌, pos};
ghost use Rattle.algebra.specs.Within.{Each};
ghost use Rattle.forms.specs.Binomials as binomials;
ghost use Rattle.element.specs.Plane as plane;
ghost use Rattle.element.specs.Plane.{◌-ᵥ◌};
ghost use Rattle.element.specs.Control as control;
ghost use Rattle.points.specs.Points.{point};
ghost use Rattle.quad.specs.Points as spec;

use points::Net;

// C(n, k), for n up to 3: between its ones such a row of binomials has n itself.
fn choose(n: usize, k: usize) -> usize
    requires { (n ≤ 3) × (k ≤ n) }
    ensures value { result ≡ binomials.choose n k }
    ensures small { (0 < result) × (result ≤ 3) }
{
    if k == 0 {
        return 1;
    }
    if k == n {
        return 1;
    }
    n
}

// A vector of the plane.
#[derive(Clone, Copy)]
struct Vector {
    x: i64,
    y: i64,
}

// The point b minus the point a, of the net r.
fn difference(r: &Net, a: usize, b: usize) -> Vector
    ensures { spec.vec result ≡ point r.now.x r.now.y b -ᵥ point r.now.x r.now.y a }
{
    Vector {
        x: r.step_x(a, b),
        y: r.step_y(a, b),
    }
}

// α(i, j) = R(i+1, j) - R(i, j).
fn alpha(r: &Net, i: usize, j: usize) -> Vector
    requires { (i ≤ 1) × (j ≤ 2) }
    ensures { spec.vec result ≡ control.α (spec.grid r.now.x r.now.y) i j }
{
    difference(r, i + 3 * j, i + 1 + 3 * j)
}

// β(i, j) = R(i, j+1) - R(i, j).
fn beta(r: &Net, i: usize, j: usize) -> Vector
    requires { (i ≤ 2) × (j ≤ 1) }
    ensures { spec.vec result ≡ control.β (spec.grid r.now.x r.now.y) i j }
{
    difference(r, i + 3 * j, i + 3 * (j + 1))
}

// The determinant of two vectors.
fn det(a: Vector, b: Vector) -> i64
    requires { Each 1572864 (a.x ∷ a.y ∷ b.x ∷ b.y ∷ []) }
    ensures { result ≡ plane.det (spec.vec a) (spec.vec b) }
{
    points::det(a.x, a.y, b.x, b.y)
}

// The term C(2,i2)·C(2,j1)·det(α(i1,j1), β(i2,j2)), of value (i1+i2, j1+j2).
fn term(r: &Net, i1: usize, i2: usize, j1: usize, j2: usize) -> i64
    requires { (i1 ≤ 1) × (i2 ≤ 2) × (j1 ≤ 2) × (j2 ≤ 1) }
    ensures { result ≡ control.term (spec.grid r.now.x r.now.y) (i1 + i2) (j1 + j2) i1 i2 j1 j2 }
{
    let d = det(alpha(r, i1, j1), beta(r, i2, j2));
    (choose(2, i2) * choose(2, j1)) as i64 * d
}

// The sums of relation 27, (I, J) at I + 4J: over all i1, i2, j1, j2 each term is added where I = i1+i2 and J = j1+j2.
fn sums(r: &Net) -> [i64; 16]
    ensures { result ≡ spec.sums9 r.now.x r.now.y }
{
    let mut c = [0; 16];
    for i1 in 0..2 {
        for i2 in 0..3 {
            for j1 in 0..3 {
                for j2 in 0..2 {
                    c[(i1 + i2) + 4 * (j1 + j2)] += term(r, i1, i2, j1, j2);
                }
            }
        }
    }
    c
}

// What value (i, j) multiplies its sum by: 9/(C(3,i)·C(3,j)).
fn weight(i: usize, j: usize) -> i64
    requires { (i ≤ 3) × (j ≤ 3) }
    ensures { result ≡ pos (9 / (binomials.choose 3 i * binomials.choose 3 j)) }
{
    (9 / (choose(3, i) * choose(3, j))) as i64
}

// The sixteen values, (i, j) at i + 4j: each sum times its weight.
pub fn combine(r: &Net) -> [i64; 16]
    ensures { result ≡ spec.combine9 r.now.x r.now.y }
{
    let s = sums(r);
    let mut c = [0; 16];
    for j in 0..4 {
        for i in 0..4 {
            let k = i + 4 * j;
            c[k] = weight(i, j) * s[k];
        }
    }
    c
}
