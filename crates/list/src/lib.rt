// The list of a block's verdicts as text: the calls `write_list`, and `write_floor_list` under a floor on distortion.
#![tactic(auto)]

ghost use Rattle.std.specs.Prelude.{◌≡◌, ◌*◌, length, take};
ghost use Rattle.floor.specs.Calls.{ToldBy};
ghost use Rattle.list.specs.Calls.{as_listed, WritesBy, WritesList, WritesFloorList};
ghost use Rattle.list.specs.Steps.{sign_by, LineAt, LinesTo, WholeList};

use block::{check, record_at};
use endian::get_u16;
use faults::refusal::Refusal;
use floor::{Profile, verdict_by};
use lines::{first_line, record_line, refused_line};
use signs::{limit_of, used_numbers};
use text::write;
use verdict::{Judged, Word};

// The code, the record number, and the length of the list.
// stays (1): 01 gives the answer these fields, and a refusal zero in all but the first two (`list/specs/Calls: Fits, Short`).
#[derive(Clone, Copy)]
pub struct Listed {
    pub code: u8,
    pub number: u32,
    pub length: usize,
}

// The first byte of a sign that is shown by a profile.
fn sign_by(by: Profile, signed: u8) -> u8
    ensures { result ≡ sign_by by signed }
{
    match by {
        Profile::Plain => signed,
        Profile::Floor(_) => 0,
    }
}

// The answer to a record's element under a limit, from the record's 18 numbers.
fn judge_by(by: Profile, kind: u8, limit: u8, coords: &[i32]) -> Judged
    requires { length coords.now ≡ 18 }
    ensures { ToldBy by kind limit (take (2 * kind) coords.now) result }
{
    let n = used_numbers(kind);
    verdict_by(by, kind, limit, &coords[..n])
}

// The line of record k of a block.
fn line_at(out: &mut [u8], at: usize, bytes: &[u8], k: u32, by: Profile) -> usize
    ensures { LineAt by bytes.now k out.old at out.new result }
{
    let r = record_at(bytes, k);
    let signed = sign_by(by, r.signed);
    let limit = limit_of(r.limit, signed, r.level);
    let v = judge_by(by, r.kind, limit, &r.coords);
    record_line(out, at, r.id, r.kind, v, signed)
}

// The lines of a block's records.
fn lines_to(out: &mut [u8], from: usize, bytes: &[u8], count: u32, by: Profile) -> usize
    ensures { LinesTo by bytes.now count out.old from out.new result }
{
    let mut at = from;
    for k in 0..count {
        at = line_at(out, at, bytes, k, by);
    }
    at
}

// The list, where there is room for it, and the place after it.
fn whole_list(bytes: &[u8], out: &mut [u8], by: Profile) -> usize
    ensures { WholeList by bytes.now out.old out.new result }
{
    match check(bytes) {
        Ok(count) => {
            let version = get_u16(bytes, 3);
            let at = first_line(out, 0, version as u64, count as u64);
            lines_to(out, at, bytes, count, by)
        }
        Err(e) => refused_line(out, 0, e.refusal.number() as u64, e.number as u64),
    }
}

// Writes the list of a block by a profile into a buffer, and tells its length; 5 where the buffer is too short.
fn write_listed(bytes: &[u8], out: &mut [u8], by: Profile) -> Result<usize, Refusal>
    ensures { WritesBy by bytes.now out.old out.new (as_listed result) }
{
    let mut space = [0u8; 71680];
    let n = whole_list(bytes, &mut space, by);
    if out.len() < n {
        return Err(Refusal::Room);
    }
    write::word(out, 0, &space[..n]);
    Ok(n)
}

// Writes the list of a block by a profile into a buffer, and answers its length.
pub fn write_by(bytes: &[u8], out: &mut [u8], by: Profile) -> Listed
    ensures { WritesBy by bytes.now out.old out.new result }
{
    match write_listed(bytes, out, by) {
        Ok(length) => Listed {
            code: 0,
            number: 0,
            length,
        },
        Err(e) => Listed {
            code: e.number(),
            number: 0,
            length: 0,
        },
    }
}

// The list of a block.
pub fn write_list(bytes: &[u8], out: &mut [u8]) -> Listed
    ensures { WritesList bytes.now out.old out.new result }
{
    write_by(bytes, out, Profile::Plain)
}

// The list of a block under a floor of p percent.
pub fn write_floor_list(bytes: &[u8], out: &mut [u8], p: u8) -> Listed
    ensures { WritesFloorList p bytes.now out.old out.new result }
{
    write_by(bytes, out, Profile::Floor(p))
}
