// Control values of a quad: its fourfold control points, and from them the values by the sum in sum.rt.
// Nodes and control points stand in rows: ij at i + 3j.
#![tactic(auto)]

mod sum;

ghost use Rattle.std.specs.Prelude.{◌≡◌};
ghost use Rattle.element.specs.Control as control;
ghost use Rattle.element.specs.Origin.{Inside};
ghost use Rattle.points.specs.Points.{Ten};
ghost use Rattle.quad.specs.Points as spec;

use crate::sum::combine;
use points::{Net, coordinates, pick};

// Where the nodes have a gap: eight nodes omit 11.
fn gap(eight: bool) -> usize
    ensures { result ≡ spec.gap eight }
{
    if eight {
        return 5;
    }
    9
}

// The fourfold control point of the edge from a to b with the middle m.
fn edge(n: &[i64; 10], m: usize, a: usize, b: usize) -> i64
    requires { Ten 4096 n.now }
    ensures { result ≡ spec.edge n.now m a b }
{
    8 * pick(n, m) - 2 * pick(n, a) - 2 * pick(n, b)
}

// The sum of four nodes.
fn four(n: &[i64; 10], a: usize, b: usize, c: usize, d: usize) -> i64
    requires { Ten 4096 n.now }
    ensures { result ≡ spec.four n.now a b c d }
{
    pick(n, a) + pick(n, b) + pick(n, c) + pick(n, d)
}

// The fourfold control point 11.
fn centre(n: &[i64; 10], eight: bool) -> i64
    requires { Ten 4096 n.now }
    ensures { result ≡ spec.centre n.now eight }
{
    let corners = four(n, 0, 2, 6, 8);
    let edges = four(n, 1, 3, 5, 7);
    if eight {
        return 4 * edges - 3 * corners;
    }
    16 * pick(n, 4) - 4 * edges + corners
}

// The fourfold control points, along one coordinate.
fn points9(n: &[i64; 10], eight: bool) -> [i64; 10]
    requires { Ten 4096 n.now }
    ensures { result ≡ spec.points9 n.now eight }
{
    let below = edge(n, 1, 0, 2);
    let left = edge(n, 3, 0, 6);
    let middle = centre(n, eight);
    let right = edge(n, 5, 2, 8);
    let above = edge(n, 7, 6, 8);
    [
        4 * n[0],
        below,
        4 * n[2],
        left,
        middle,
        right,
        4 * n[6],
        above,
        4 * n[8],
        0,
    ]
}

// The sixteen control values of a quad with eight nodes, or nine.
pub fn values(xs: &[i32], eight: bool) -> [i64; 16]
    requires { Inside (spec.quad_kind eight) xs.now }
    ensures { result ≡ control.control_values (spec.quad_kind eight) xs.now }
{
    let g = gap(eight);
    let x = points9(&coordinates(xs, g, 0), eight);
    let y = points9(&coordinates(xs, g, 1), eight);
    combine(&Net { x, y })
}
