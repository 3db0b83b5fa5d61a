// The call `straighten` (02, Ask 12): the fewest middle nodes of a triangle, replaced by the middles of their edges, that make it valid.
#![tactic(auto)]

ghost use Rattle.std.specs.Prelude.{◌≡◌, true, false, ◌<◌, length};
ghost use Rattle.element.specs.Nodes.{node};
ghost use Rattle.element.specs.Refusals.{Accepted, level_codes};
ghost use Rattle.middles.specs.Middles.{placed, as_node};
ghost use Rattle.middles.specs.Sets.{set_of};
ghost use Rattle.straighten.specs.Calls as spec;
ghost use Rattle.straighten.specs.Calls.{as_straightened, GivesValid, StraightenOf};
ghost use Rattle.straighten.specs.Trials.{set_at, FirstOf};

use faults::refusal::Refusal;
use faults::six_code;
use middles::{Node, Replaced, new_node, node_at, with_set};
use verdict::{is_valid, verdict};

// stays (1): (a) `moved` and `given` hold the flag, and the rules give both places of a node that is kept.
// What became of a middle node: whether it was replaced, its old and its new place.
#[derive(Clone, Copy)]
pub struct Moved {
    pub replaced: bool,
    pub old: Node,
    pub new: Node,
}

// The code, the record number, the new coordinates, and what became of the middle nodes.
// stays (1): 02 gives the answer these fields, and a refusal zero in all but the first two (`straighten/specs/Calls: refusal`).
#[derive(Clone, Copy)]
pub struct Straightened {
    pub code: u8,
    pub number: u32,
    pub coords: [i32; 12],
    pub m01: Moved,
    pub m12: Moved,
    pub m02: Moved,
}

// A set of middle nodes.
pub fn set(m01: bool, m12: bool, m02: bool) -> Replaced
    ensures { result ≡ set_of m01 m12 m02 }
{
    Replaced { m01, m12, m02 }
}

// The set that is tried at place t: fewer nodes first, and of as many M01 before M12 before M02.
fn set_at(t: u32) -> Replaced
    requires { t < 8 }
    ensures { result ≡ set_at t }
{
    match t {
        0 => set(false, false, false),
        1 => set(true, false, false),
        2 => set(false, true, false),
        3 => set(false, false, true),
        4 => set(true, true, false),
        5 => set(true, false, true),
        6 => set(false, true, true),
        _ => set(true, true, true),
    }
}

// Whether an accepted triangle is valid once these nodes are replaced.
fn gives_valid(limit: u8, coords: &[i32], s: Replaced) -> bool
    requires { Accepted (level_codes 6 limit coords.now) }
    ensures yes { result ≡ true → GivesValid limit coords.now s }
    ensures no { result ≡ false → ¬ GivesValid limit coords.now s }
{
    let c = with_set(coords, s);
    let v = verdict(6, limit, &c);
    let word = v.word;
    is_valid(word)
}

// The first set in the order of trial that makes an accepted triangle valid, if there is one.
fn first_set(limit: u8, coords: &[i32]) -> Option<Replaced>
    requires { Accepted (level_codes 6 limit coords.now) }
    ensures { FirstOf limit coords.now result }
{
    for t in 0..8 {
        let s = set_at(t);
        if gives_valid(limit, coords, s) {
            return Some(s);
        }
    }
    None
}

// What becomes of the middle node m, between the corners a and b.
fn told_node(coords: &[i32], replaced: bool, a: usize, b: usize, m: usize) -> Moved
    requires { (length coords.now ≡ 12) × (a < 6) × (b < 6) × (m < 6) }
    ensures { result ≡ record { replaced = replaced; old = as_node (node coords.now m); new = as_node (placed coords.now replaced a b m) } }
{
    let old = node_at(coords, m);
    let new = new_node(coords, replaced, a, b, m);
    Moved { replaced, old, new }
}

// The answer, where these nodes are replaced.
pub fn told(coords: &[i32], s: Replaced) -> Straightened
    requires { length coords.now ≡ 12 }
    ensures { result ≡ spec.given coords.now s }
{
    let c = with_set(coords, s);
    let m01 = told_node(coords, s.m01, 0, 1, 3);
    let m12 = told_node(coords, s.m12, 1, 2, 4);
    let m02 = told_node(coords, s.m02, 0, 2, 5);
    Straightened {
        code: 0,
        number: 0,
        coords: c,
        m01,
        m12,
        m02,
    }
}

// A middle node of which nothing is told.
fn nothing() -> Moved
    ensures { result ≡ spec.nothing }
{
    let o = Node { x: 0, y: 0 };
    Moved {
        replaced: false,
        old: o,
        new: o,
    }
}

// The answer of a refused call.
pub fn refused(code: u8) -> Straightened
    ensures { result ≡ spec.refusal code }
{
    let m = nothing();
    Straightened {
        code,
        number: 0,
        coords: [0; 12],
        m01: m,
        m12: m,
        m02: m,
    }
}

// The fewest middle nodes of a triangle that make it valid where the middles of their edges stand for them.
pub fn choose(kind: u8, limit: u8, coords: &[i32]) -> Result<Replaced, Refusal>
    ensures { StraightenOf kind limit coords.now (as_straightened coords.now result) }
{
    six_code(kind, limit, coords)?;
    match first_set(limit, coords) {
        Some(s) => Ok(s),
        None => Err(Refusal::NoneValid),
    }
}

// A triangle with the fewest of its middle nodes replaced by the middles of their edges that make it valid.
pub fn straighten(kind: u8, limit: u8, coords: &[i32]) -> Straightened
    ensures { StraightenOf kind limit coords.now result }
{
    match choose(kind, limit, coords) {
        Ok(s) => told(coords, s),
        Err(e) => refused(e.number()),
    }
}
