// The call `append_mesh`.
#![tactic(auto)]

mod fill;
mod pass;
mod source;
mod texts;

ghost use Rattle.std.specs.Prelude.{◌≡◌};
ghost use Rattle.mesh.specs.Calls.{as_meshed, AppendsMesh};

use block::{Refused, check};
use faults::refusal::Refusal;

// The code, the record number, how many bytes are used, how many elements were appended, and how many were passed over.
// stays (1): 02 gives the answer these fields, and a refusal zero in all but the first two (`mesh/specs/Calls: refusal`).
#[derive(Clone, Copy)]
pub struct Meshed {
    pub code: u8,
    pub number: u32,
    pub used: u64,
    pub appended: u32,
    pub passed: u64,
}

// How many bytes are used, how many elements were appended, and how many were passed over.
#[derive(Clone, Copy)]
pub struct Added {
    pub used: u64,
    pub appended: u32,
    pub passed: u64,
}

// The answer of the call.
fn answer(done: Result<Added, Refused>) -> Meshed
    ensures { result ≡ as_meshed done }
{
    match done {
        Ok(added) => Meshed {
            code: 0,
            number: 0,
            used: added.used,
            appended: added.appended,
            passed: added.passed,
        },
        Err(e) => Meshed {
            code: e.refusal.number(),
            number: e.number,
            used: 0,
            appended: 0,
            passed: 0,
        },
    }
}

// The elements of a Gmsh text, appended to the block in the first `used` bytes of a lent buffer.
fn append(text: &[u8], limit: u8, buffer: &mut [u8], used: u64) -> Result<Added, Refused>
    ensures { AppendsMesh text.now limit buffer.old used (as_meshed result) buffer.new }
{
    texts::text_code(text)?;
    let n = used as usize;
    if buffer.len() < n {
        return Err(Refused::from(Refusal::Room));
    }
    let count = check(&buffer[..n])?;
    fill::append_all(text, limit, buffer, used, count)
}

// The elements of a Gmsh text, appended to the block in the first `used` bytes of a lent buffer.
pub fn append_mesh(text: &[u8], limit: u8, buffer: &mut [u8], used: u64) -> Meshed
    ensures { AppendsMesh text.now limit buffer.old used result buffer.new }
{
    answer(append(text, limit, buffer, used))
}
