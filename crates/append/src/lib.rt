// The calls `start_block` and `append_record`.
#![tactic(auto)]

ghost use Rattle.std.specs.Prelude.{◌≡◌, ◌+◌, ◌*◌, ◌≤◌, length};
ghost use Rattle.element.specs.Refusals.{Coded};
ghost use Rattle.endian.specs.Numbers.{over};
ghost use Rattle.faults.specs.Refusal.{code_of};
ghost use Rattle.record.specs.Record.{numbers_bytes, record_bytes};
ghost use Rattle.block.specs.Block.{place};
ghost use Rattle.block.specs.Calls.{as_checked};
ghost use Rattle.block.specs.Faults.{lowest};
ghost use Rattle.append.specs.Append.{padded, follow_codes, room_codes};
ghost use Rattle.append.specs.Calls.{as_appended, Starts, Allows, Appends};
ghost use Rattle.append.specs.Series.{next_codes};

use block::{Refused, check, record_at};
use endian::{put_i32, put_u32};
use faults::refusal::Refusal;
use faults::stored_code;
use record::Record;

// The answer of a call that writes a block: the code, the record number, and how many bytes are used.
// stays (1): 01 gives the answer these fields, and a refusal zero in all but the first two (`append/specs/Calls: NotAppended`).
#[derive(Clone, Copy)]
pub struct Appended {
    pub code: u8,
    pub number: u32,
    pub used: u64,
}

// The answer that tells how many bytes are used, or a refusal.
fn answer(done: Result<u64, Refused>) -> Appended
    ensures { result ≡ as_appended done }
{
    match done {
        Ok(used) => Appended {
            code: 0,
            number: 0,
            used,
        },
        Err(e) => Appended {
            code: e.refusal.number(),
            number: e.number,
            used: 0,
        },
    }
}

// An empty block at the start of a lent buffer, and how many bytes it takes.
fn start(buffer: &mut [u8]) -> Result<u64, Refused>
    ensures { Starts buffer.old (as_appended result) buffer.new }
{
    if buffer.len() < 9 {
        return Err(Refused::from(Refusal::Room));
    }
    buffer[..9].copy_from_slice(b"CEL\x01\0\0\0\0\0");
    Ok(9)
}

// An empty block at the start of a lent buffer.
pub fn start_block(buffer: &mut [u8]) -> Appended
    ensures { Starts buffer.old result buffer.new }
{
    answer(start(buffer))
}

// Nine pairs: the coordinates, and then zeros.
pub fn pad(coords: &[i32]) -> [i32; 18]
    requires { length coords.now ≤ 18 }
    ensures { result ≡ padded coords.now }
{
    let mut out = [0i32; 18];
    out[..coords.len()].copy_from_slice(coords);
    out
}

// Nine pairs, written at a place.
fn put_numbers(s: &mut [u8], at: usize, zs: [i32; 18])
    requires { at + 72 ≤ length s.old }
    ensures { s.new ≡ over s.old at (numbers_bytes zs) }
{
    for k in 0..18 {
        put_i32(s, at + 4 * k, zs[k]);
    }
}

// A record, written at a place.
pub fn put_record(s: &mut [u8], at: usize, r: Record)
    requires { at + 80 ≤ length s.old }
    ensures { s.new ≡ over s.old at (record_bytes r) }
{
    put_u32(s, at, r.id);
    s[at + 4..at + 8].copy_from_slice(&[r.kind, r.limit, r.signed, r.level]);
    put_numbers(s, at + 8, r.coords);
}

// The least id that may follow the records of a block.
pub fn lowest_id(bytes: &[u8], count: u32) -> u64
    requires { place count ≤ length bytes.now }
    ensures { result ≡ lowest bytes.now count }
{
    if count == 0 {
        return 0;
    }
    let r = record_at(bytes, count - 1);
    u64::from(r.id) + 1
}

// Refusal 10, 11 or 5, if any, for a record behind a block of which low is the least id that may follow.
pub fn follow_code(low: u64, count: u32, room: usize, id: u32) -> Result<(), Refusal>
    ensures { Coded (follow_codes low count room id) (code_of result) }
{
    if u64::from(id) < low {
        return Err(Refusal::Order);
    }
    if 800 <= count {
        return Err(Refusal::Full);
    }
    if room < 80 {
        return Err(Refusal::Room);
    }
    Ok(())
}

// Refusal 1, 2, 3, 4 or 21, then 10, 11 or 5, if any, for an element behind such a block.
pub fn next_code(
    low: u64,
    count: u32,
    room: usize,
    id: u32,
    kind: u8,
    limit: u8,
    coords: &[i32],
) -> Result<(), Refusal>
    ensures { Coded (next_codes low count room (record { id = id; kind = kind; limit = limit; coords = coords.now })) (code_of result) }
{
    stored_code(kind, limit, coords)?;
    follow_code(low, count, room, id)
}

// The refusal of an append behind the block, or the block's count.
fn append_code(
    bytes: &[u8],
    room: usize,
    id: u32,
    kind: u8,
    limit: u8,
    coords: &[i32],
) -> Result<u32, Refused>
    ensures { Allows (room_codes bytes.now room id kind limit coords.now) bytes.now (as_checked result) }
{
    let count = check(bytes)?;
    let low = lowest_id(bytes, count);
    next_code(low, count, room, id, kind, limit, coords)?;
    Ok(count)
}

// A record, appended to the block in the first `used` bytes of a lent buffer, and how many are used then.
fn append(
    buffer: &mut [u8],
    used: u64,
    id: u32,
    kind: u8,
    limit: u8,
    coords: &[i32],
) -> Result<u64, Refused>
    ensures { Appends buffer.old used id kind limit coords.now (as_appended result) buffer.new }
{
    let n = used as usize;
    if buffer.len() < n {
        return Err(Refused::from(Refusal::Room));
    }
    let room = buffer.len() - n;
    let count = append_code(&buffer[..n], room, id, kind, limit, coords)?;
    let zs = pad(coords);
    put_record(
        buffer,
        n,
        Record {
            id,
            kind,
            limit,
            signed: 0,
            level: 0,
            coords: zs,
        },
    );
    put_u32(buffer, 5, count + 1);
    Ok(used + 80)
}

// A record, appended to the block in the first `used` bytes of a lent buffer.
// stays (5): (a) id, kind, limit and coordinates are given one by one: `Appends`, the call's clause, and `append_codes` name them so.
pub fn append_record(
    buffer: &mut [u8],
    used: u64,
    id: u32,
    kind: u8,
    limit: u8,
    coords: &[i32],
) -> Appended
    ensures { Appends buffer.old used id kind limit coords.now result buffer.new }
{
    answer(append(buffer, used, id, kind, limit, coords))
}
