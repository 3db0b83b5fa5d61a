// Records that are tried one after another behind a good block, and written at once.
#![tactic(auto)]

mod narrow;

ghost use Rattle.std.specs.Prelude.{◌≡◌, [], ◌∷◌, ◌+◌, ◌-◌, ◌*◌, ◌≤◌, ◌<◌, length, take};
ghost use Rattle.element.specs.Refusals.{Accepted};
ghost use Rattle.endian.specs.Numbers.{bytes, over};
ghost use Rattle.block.specs.Block.{count_of};
ghost use Rattle.append.specs.Append.{buffer_codes};
ghost use Rattle.batch.specs.Tallies.{opening, Moves};

use append::{lowest_id, next_code, pad, put_record};
use endian::put_u32;
use faults::refusal::Refusal;
use narrow::narrowed;
use record::Record;

// What a pass has met: the least id that may follow, how many records the block has with those taken, the bytes behind them, how
// many were taken, and how many were passed over.
#[derive(Clone, Copy)]
pub struct Tally {
    pub low: u64,
    pub count: u32,
    pub room: usize,
    pub taken: u32,
    pub passed: u64,
}

// The tally of a pass that begins behind the block in the first n bytes.
pub fn begin(buffer: &[u8], n: usize, count: u32) -> Tally
    requires good { Accepted (buffer_codes buffer.now n) }
    requires counted { count ≡ count_of (take n buffer.now) }
    ensures { result ≡ opening buffer.now n }
{
    Tally {
        low: lowest_id(&buffer[..n], count),
        count,
        room: buffer.len() - n,
        taken: 0,
        passed: 0,
    }
}

// The tally with one more that is passed over.
pub fn one_passed(s: Tally) -> Tally
    requires { s.passed < 18446744073709551615 }
    ensures { result ≡ record { low = s.low; count = s.count; room = s.room; taken = s.taken; passed = s.passed + 1 } }
{
    Tally {
        passed: s.passed + 1,
        ..s
    }
}

// The tally with one more that is taken.
fn one_more(s: Tally, id: u32) -> Tally
    requires { (s.count < 800) × (s.taken ≤ s.count) × (80 ≤ s.room) }
    ensures { result ≡ record { low = id + 1; count = s.count + 1; room = s.room - 80; taken = s.taken + 1; passed = s.passed } }
{
    Tally {
        low: u64::from(id) + 1,
        count: s.count + 1,
        room: s.room - 80,
        taken: s.taken + 1,
        passed: s.passed,
    }
}

// Tries a record, and writes it behind those that were taken.
fn take_held(
    s: Tally,
    id: u32,
    kind: u8,
    limit: u8,
    coords: &[i32],
    out: &mut [u8],
) -> Result<Tally, Refusal>
    requires few { s.taken ≤ s.count }
    requires long { 64000 ≤ length out.old }
    ensures { Moves (record { id = id; kind = kind; limit = limit; coords = coords.now } ∷ []) 0 s out.old result out.new }
{
    next_code(s.low, s.count, s.room, id, kind, limit, coords)?;
    let from = 80 * (s.taken as usize);
    let zs = pad(coords);
    put_record(
        out,
        from,
        Record {
            id,
            kind,
            limit,
            signed: 0,
            level: 0,
            coords: zs,
        },
    );
    Ok(one_more(s, id))
}

// Tries a record of any numbers, and writes it behind those that were taken: a number that is no i32 is outside.
pub fn take(
    s: Tally,
    id: u32,
    kind: u8,
    limit: u8,
    coords: &[i64],
    out: &mut [u8],
) -> Result<Tally, Refusal>
    requires few { s.taken ≤ s.count }
    requires long { 64000 ≤ length out.old }
    requires short { length coords.now ≤ 19 }
    ensures { Moves (record { id = id; kind = kind; limit = limit; coords = coords.now } ∷ []) 0 s out.old result out.new }
{
    let zs = narrowed(coords);
    take_held(s, id, kind, limit, &zs[..coords.len()], out)
}

// Writes the records that were taken behind the block, and the count; answers how many bytes are used.
pub fn finish(buffer: &mut [u8], used: u64, s: Tally, out: &[u8]) -> u64
    requires { (80 * s.taken ≤ length out.now) × (used + 80 * s.taken ≤ length buffer.old) × (9 ≤ length buffer.old) }
    ensures written { buffer.new ≡ over (over buffer.old used (take (80 * s.taken) out.now)) 5 (bytes 4 s.count) }
    ensures answer { result ≡ used + 80 * s.taken }
{
    let n = used as usize;
    let m = 80 * (s.taken as usize);
    buffer[n..n + m].copy_from_slice(&out[..m]);
    put_u32(buffer, 5, s.count);
    used + m as u64
}
