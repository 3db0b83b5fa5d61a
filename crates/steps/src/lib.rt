// What a walk over cells answers, and the steps that both walks take with it.
#![tactic(auto)]

ghost use Rattle.std.specs.Prelude.{◌≡◌, ◌+◌, ◌<◌};
ghost use Rattle.corners.specs.First.{nothing};
ghost use Rattle.steps.specs.Steps as steps;

use corners::{First, better};

// The first bad point known, the deepest level of a cell that was kept, how many cells were kept, and how many of them do not pass.
#[derive(Clone, Copy)]
pub struct Walk {
    pub best: First,
    pub deep: u32,
    pub cells: u32,
    pub failing: u32,
}

// A cell that is kept.
pub fn leaf(level: u32, best: First, failing: u32) -> Walk
    ensures { result ≡ steps.leaf level best failing }
{
    Walk {
        best: best,
        deep: level,
        cells: 1,
        failing: failing,
    }
}

// The limit for what is walked next.
pub fn lowered(stop: u32, w: Walk) -> u32
    ensures { result ≡ steps.lowered stop w.best }
{
    let best = w.best;
    if best.bad & (best.level < stop) {
        return best.level;
    }
    stop
}

// Two walks as one.
pub fn merge(a: Walk, b: Walk) -> Walk
    requires cells { a.cells + b.cells < 4294967296 }
    requires failing { a.failing + b.failing < 4294967296 }
    ensures { result ≡ steps.merge a b }
{
    let p = a.best;
    let q = b.best;
    let best = better(p, q);
    let deep = a.deep.max(b.deep);
    let cells = a.cells + b.cells;
    let failing = a.failing + b.failing;
    Walk {
        best: best,
        deep: deep,
        cells: cells,
        failing: failing,
    }
}

// A walk, and one cell more that passes: the bad point of the walk stays.
pub fn kept(w: Walk, level: u32) -> Walk
    requires cells { w.cells + 1 < 4294967296 }
    requires plain { steps.Plain w.best }
    ensures { result ≡ steps.merge w (steps.leaf level nothing 0) }
{
    let best = w.best;
    let deep = w.deep.max(level);
    let cells = w.cells + 1;
    Walk {
        best: best,
        deep: deep,
        cells: cells,
        failing: w.failing,
    }
}
