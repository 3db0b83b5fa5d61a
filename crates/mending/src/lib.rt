// The call `straighten_record` (02, Ask 12): record k of a block with the fewest of its middle nodes replaced that make it valid.
#![tactic(auto)]

ghost use Rattle.std.specs.Prelude.{◌≡◌, cond, ◌+◌, ◌≤◌, ◌<◌, length};
ghost use Rattle.block.specs.Block.{place};
ghost use Rattle.block.specs.Changes.{with_sign};
ghost use Rattle.mending.specs.Changes.{with_node};
ghost use Rattle.mending.specs.Calls.{answer_of, as_mended, Mends};
ghost use Rattle.mending.specs.Steps.{as_vec, Sound, Tells, Tried};

use block::{Refused, fetch};
use endian::put_i32;
use faults::refusal::Refusal;
use middles::Node;
use record::Record;
use straighten::{Moved, Straightened, choose, refused, set, told};

// The code, the record number, and what became of the middle nodes.
// stays (1): 02 gives the answer these fields, and a refusal zero in all but the first two (`mending/specs/Calls: answer_of`).
#[derive(Clone, Copy)]
pub struct Mended {
    pub code: u8,
    pub number: u32,
    pub m01: Moved,
    pub m12: Moved,
    pub m02: Moved,
}

// The answer with a code and a record number, and with what is told of the middle nodes.
fn answer(code: u8, number: u32, t: Straightened) -> Mended
    ensures { result ≡ answer_of code number t }
{
    let m01 = t.m01;
    let m12 = t.m12;
    let m02 = t.m02;
    Mended {
        code,
        number,
        m01,
        m12,
        m02,
    }
}

// The answer that tells what became of the middle nodes, or a refusal.
fn tell(done: Result<Straightened, Refused>) -> Mended
    ensures { result ≡ as_mended done }
{
    match done {
        Ok(t) => answer(0, 0, t),
        Err(e) => {
            let code = e.refusal.number();
            answer(code, e.number, refused(code))
        }
    }
}

// What becomes of the middle nodes of record k.
fn of_record(r: Record, k: u32) -> Result<Straightened, Refused>
    requires { Sound r }
    ensures { Tells r k (as_mended result) }
{
    if r.kind != 6 {
        let refusal = Refusal::Kind;
        return Err(Refused { refusal, number: k });
    }
    let coords = r.coords;
    if r.signed == 1 {
        return Ok(told(&coords[..12], set(false, false, false)));
    }
    match choose(6, r.limit, &coords[..12]) {
        Ok(s) => Ok(told(&coords[..12], s)),
        Err(refusal) => Err(Refused { refusal, number: k }),
    }
}

// The same of record k of a block, which is not changed yet.
fn try_record(bytes: &[u8], k: u32) -> Result<Straightened, Refused>
    ensures { Tried bytes.now k (as_mended result) }
{
    let r = fetch(bytes, k)?;
    of_record(r, k)
}

// A point, written as node i of record k.
fn put_node(block: &mut [u8], k: u32, i: usize, v: Node)
    requires { (place k + 80 ≤ length block.old) × (i < 9) }
    ensures { block.new ≡ with_node block.old k i (as_vec v) }
{
    let n = k as usize;
    let at = 17 + 80 * n + 8 * i;
    let next = at + 4;
    put_i32(block, at, v.x);
    put_i32(block, next, v.y);
}

// The same of a middle node that was replaced.
fn put_moved(block: &mut [u8], k: u32, i: usize, m: Moved)
    requires { (place k + 80 ≤ length block.old) × (i < 9) }
    ensures { block.new ≡ cond m.replaced (with_node block.old k i (as_vec m.new)) block.old }
{
    if !m.replaced {
        return;
    }
    let new = m.new;
    put_node(block, k, i, new);
}

// Record k without its sign, where a node of it was replaced.
fn unsign(block: &mut [u8], k: u32, replaced: bool)
    requires { place k + 80 ≤ length block.old }
    ensures { block.new ≡ cond replaced (with_sign block.old k 0 0) block.old }
{
    if !replaced {
        return;
    }
    let n = k as usize;
    let at = 15 + 80 * n;
    let next = at + 1;
    block[at] = 0;
    block[next] = 0;
}

// The steps of `straighten_record`.
fn mend(block: &mut [u8], k: u32) -> Result<Straightened, Refused>
    ensures { Mends block.old k (as_mended result) block.new }
{
    let t = try_record(block, k)?;
    let a = t.m01;
    let b = t.m12;
    let c = t.m02;
    put_moved(block, k, 3, a);
    put_moved(block, k, 4, b);
    put_moved(block, k, 5, c);
    unsign(block, k, a.replaced | b.replaced | c.replaced);
    Ok(t)
}

// Record k of a block, straightened at its stored limit.
pub fn straighten_record(block: &mut [u8], k: u32) -> Mended
    ensures { Mends block.old k result block.new }
{
    tell(mend(block, k))
}
