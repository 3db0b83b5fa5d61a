// The middles of a triangle's edges, rounded down, and a six-node triangle with some of its middle nodes replaced by them (02, Ask 12).
#![tactic(auto)]

ghost use Rattle.std.specs.Prelude.{◌≡◌, ◌*◌, ◌+◌, ◌<◌, ◌+ℤ◌, length};
ghost use Rattle.element.specs.Nodes.{node};
ghost use Rattle.middles.specs.Middles.{half, halfway, replacing, placed, as_node};

// A place of the plane.
#[derive(Clone, Copy)]
pub struct Node {
    pub x: i32,
    pub y: i32,
}

// Which of the three middle nodes are replaced.
#[derive(Clone, Copy)]
pub struct Replaced {
    pub m01: bool,
    pub m12: bool,
    pub m02: bool,
}

// Half of a number, rounded down: a shift to the right rounds so, and a division would not.
fn half_down(s: i64) -> i64
    ensures { result ≡ half s }
{
    s >> 1
}

// The middle of two coordinates, rounded down. Their sum takes 33 bits.
fn middle(a: i32, b: i32) -> i32
    ensures { result ≡ half (a +ℤ b) }
{
    let x = a as i64;
    let y = b as i64;
    half_down(x + y) as i32
}

// Node k.
pub fn node_at(coords: &[i32], k: usize) -> Node
    requires { 2 * k + 1 < length coords.now }
    ensures { result ≡ as_node (node coords.now k) }
{
    Node {
        x: coords[2 * k],
        y: coords[2 * k + 1],
    }
}

// The middle of the nodes a and b.
fn middle_of(coords: &[i32], a: usize, b: usize) -> Node
    requires { (2 * a + 1 < length coords.now) × (2 * b + 1 < length coords.now) }
    ensures { result ≡ as_node (halfway (node coords.now a) (node coords.now b)) }
{
    let p = node_at(coords, a);
    let q = node_at(coords, b);
    Node {
        x: middle(p.x, q.x),
        y: middle(p.y, q.y),
    }
}

// The middle node m, between the corners a and b, at its new place.
pub fn new_node(coords: &[i32], replaced: bool, a: usize, b: usize, m: usize) -> Node
    requires { (length coords.now ≡ 12) × (a < 6) × (b < 6) × (m < 6) }
    ensures { result ≡ as_node (placed coords.now replaced a b m) }
{
    if replaced {
        return middle_of(coords, a, b);
    }
    node_at(coords, m)
}

// The coordinates of a triangle with a set of its middle nodes replaced.
pub fn with_set(coords: &[i32], s: Replaced) -> [i32; 12]
    requires { length coords.now ≡ 12 }
    ensures { result ≡ replacing coords.now s }
{
    let a = node_at(coords, 0);
    let b = node_at(coords, 1);
    let c = node_at(coords, 2);
    let d = new_node(coords, s.m01, 0, 1, 3);
    let e = new_node(coords, s.m12, 1, 2, 4);
    let f = new_node(coords, s.m02, 0, 2, 5);
    [a.x, a.y, b.x, b.y, c.x, c.y, d.x, d.y, e.x, e.y, f.x, f.y]
}
