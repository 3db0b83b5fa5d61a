// Control values of a triangle: "ckk = 2 det(ak,bk); ckl = det(ak,bl) + det(al,bk)".
#![tactic(auto)]

ghost use Rattle.std.specs.Prelude.{◌≡◌};
ghost use Rattle.element.specs.Kinds.{six};
ghost use Rattle.element.specs.Control.{values6};
ghost use Rattle.element.specs.Origin.{Inside};
ghost use Rattle.points.specs.Points.{Ten};
ghost use Rattle.triangle.specs.Points as spec;

use points::{Net, coordinates, pick};

// The doubled control point of the edge from a to b with the middle m, along one coordinate.
fn between(n: &[i64; 10], m: usize, a: usize, b: usize) -> i64
    requires { Ten 131072 n.now }
    ensures { result ≡ spec.between n.now m a b }
{
    4 * pick(n, m) - pick(n, a) - pick(n, b)
}

// The doubled control points, along one coordinate.
fn points6(n: &[i64; 10]) -> [i64; 10]
    requires { Ten 131072 n.now }
    ensures { result ≡ spec.points6 n.now }
{
    let q01 = between(n, 3, 0, 1);
    let q12 = between(n, 4, 1, 2);
    let q02 = between(n, 5, 0, 2);
    [2 * n[0], 2 * n[1], 2 * n[2], q01, q12, q02, 0, 0, 0, 0]
}

// The six control values from the control points, which stand in the order Q00, Q11, Q22, Q01, Q12, Q02.
fn combine(p: &Net) -> [i64; 6]
    ensures { result ≡ spec.combine6 p.now.x p.now.y }
{
    [
        2 * p.across(0, 3, 0, 5),
        2 * p.across(3, 1, 3, 4),
        2 * p.across(5, 4, 5, 2),
        p.across(0, 3, 3, 4) + p.across(3, 1, 0, 5),
        p.across(3, 1, 5, 2) + p.across(5, 4, 3, 4),
        p.across(0, 3, 5, 2) + p.across(5, 4, 0, 5),
    ]
}

// The six control values of a triangle.
pub fn values(xs: &[i32]) -> [i64; 6]
    requires { Inside six xs.now }
    ensures { result ≡ values6 xs.now }
{
    let x = points6(&coordinates(xs, 9, 0));
    let y = points6(&coordinates(xs, 9, 1));
    combine(&Net { x, y })
}
