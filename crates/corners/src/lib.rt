// The first bad grid point that a judge knows of: "the least such level, the bad point with smallest j, then smallest i, the
// scaled J there".
#![tactic(auto)]

ghost use Rattle.std.specs.Prelude.{◌≡◌};
ghost use Rattle.corners.specs.First as first;

// A bad grid point of a level and the scaled J there, or none. The value stands first and the flag last, so that a copy of the unused bytes
// behind the flag crosses no other field.
// stays (1): `walks/proofs/Found: walk-best`, `steps/specs/Steps: Plain, lowered` and the law of walks hold its fields, `bad` with them.
#[derive(Clone, Copy)]
pub struct First {
    pub value: i64,
    pub level: u32,
    pub i: u32,
    pub j: u32,
    pub bad: bool,
}

// No bad point.
pub fn none_found() -> First
    ensures { result ≡ first.nothing }
{
    First {
        bad: false,
        level: 0,
        i: 0,
        j: 0,
        value: 0,
    }
}

// What a cell's corner with this value says.
#[tactic(auto, unfolding(crate::specs::First::corner))]
pub fn corner(value: i64, level: u32, i: u32, j: u32) -> First
    ensures { result ≡ first.corner value level i j }
{
    if value <= 0 {
        return First {
            bad: true,
            level: level,
            i: i,
            j: j,
            value: value,
        };
    }
    none_found()
}

// Whether the point a is reported before the point b.
pub fn sooner(a: First, b: First) -> bool
    ensures { result ≡ first.sooner a b }
{
    (a.level < b.level) | ((a.level == b.level) & ((a.j < b.j) | ((a.j == b.j) & (a.i < b.i))))
}

// The first of two bad points.
pub fn better(a: First, b: First) -> First
    ensures { result ≡ first.better a b }
{
    if !a.bad {
        return b;
    }
    if b.bad & sooner(b, a) {
        return b;
    }
    a
}
