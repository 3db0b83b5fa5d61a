// An element block: the calls `check_block` and `fetch_record`, and a record of a block that was checked.
#![tactic(auto)]

ghost use Rattle.std.specs.Prelude.{◌≡◌, ◌+◌, ◌*◌, ◌≤◌};
ghost use Rattle.element.specs.Refusals.{Coded, Accepted};
ghost use Rattle.faults.specs.Refusal.{code_of, number_of};
ghost use Rattle.block.specs.Block.{version_of, count_of};
ghost use Rattle.block.specs.Faults.{version_codes, header_codes, form_codes};
ghost use Rattle.block.specs.Calls.{as_checked, as_fetched, fetched, ChecksBy, Checks, Fetches, stored_record, NextOf};

use endian::{get_u16, get_u32};
use faults::refusal::Refusal;
use record::{BLANK, Record, fault, read_record};
use signs::differs;

// A refusal, and the number of the record that it names; 0 where it names none.
#[derive(Clone, Copy, PartialEq, Eq)]
pub struct Refused {
    pub refusal: Refusal,
    pub number: u32,
}

impl From<Refusal> for Refused {
    ghost from_gives = { λ e r. r ≡ record { refusal = e; number = 0 } };

    fn from(refusal: Refusal) -> Refused {
        Refused { refusal, number: 0 }
    }
}

// The code, the record number, and the count.
// stays (1): 01 gives the answer these fields, and a refusal zero in all but the first two (`block/specs/Calls: NoCount`).
#[derive(Clone, Copy)]
pub struct Checked {
    pub code: u8,
    pub number: u32,
    pub count: u32,
}

// The code, the record number, and a record.
// stays (2): (a) beside `Record`: `fetched`, `NoRecord` and `IsRecord` hold its fields, which the rules give the call.
// stays (1): 01 gives the answer these fields, and a refusal zero in all but the first two (`block/specs/Calls: fetched, NoRecord`).
#[derive(Clone, Copy)]
pub struct Fetched {
    pub code: u8,
    pub number: u32,
    pub id: u32,
    pub kind: u8,
    pub limit: u8,
    pub signed: u8,
    pub level: u8,
    pub coords: [i32; 18],
}

// Refusal 6 or 7, if any, for a call that takes the versions from the first to the last.
pub fn version_code(bytes: &[u8], first: u32, last: u32) -> Result<(), Refusal>
    ensures { Coded (version_codes first last bytes.now) (code_of result) }
{
    if bytes.len() < 9 {
        return Err(Refusal::Header);
    }
    if !bytes.starts_with(b"CEL") {
        return Err(Refusal::Header);
    }
    let version = get_u16(bytes, 3);
    if version < first {
        return Err(Refusal::Version);
    }
    if last < version {
        return Err(Refusal::Version);
    }
    Ok(())
}

// Refusal 6, 7 or 8, if any.
fn header_code(bytes: &[u8]) -> Result<(), Refusal>
    ensures { Coded (header_codes bytes.now) (code_of result) }
{
    version_code(bytes, 1, 2)?;
    let count = get_u32(bytes, 5);
    if 800 < count {
        return Err(Refusal::Size);
    }
    let size = 9 + 80 * count;
    if bytes.len() != size as usize {
        return Err(Refusal::Size);
    }
    Ok(())
}

// The records of a block with a header that is in order, one by one.
fn check_records(bytes: &[u8], version: u32, count: u32) -> Result<u32, Refused>
    requires headed { Accepted (header_codes bytes.now) }
    requires read { (version ≡ version_of bytes.now) × (count ≡ count_of bytes.now) }
    ensures { ChecksBy (form_codes bytes.now) bytes.now (as_checked result) }
{
    let mut at: usize = 9;
    let mut low: u64 = 0;
    for k in 0..count {
        if let Err(refusal) = fault(bytes, at, version, low) {
            return Err(Refused { refusal, number: k });
        }
        let id = get_u32(bytes, at);
        low = u64::from(id) + 1;
        at += 80;
    }
    Ok(count)
}

// Whether the bytes are a block, signs aside, and of how many records.
fn check_form(bytes: &[u8]) -> Result<u32, Refused>
    ensures { ChecksBy (form_codes bytes.now) bytes.now (as_checked result) }
{
    header_code(bytes)?;
    let version = get_u16(bytes, 3);
    let count = get_u32(bytes, 5);
    check_records(bytes, version, count)
}

// The first signed record from a record on, if there is one.
pub fn next_signed(bytes: &[u8], from: u32, count: u32) -> Option<u32>
    requires headed { Accepted (header_codes bytes.now) }
    requires read { (from ≤ count) × (count ≡ count_of bytes.now) }
    ensures { NextOf bytes.now from count result }
{
    for k in from..count {
        let n = k as usize;
        if bytes[15 + 80 * n] != 0 {
            return Some(k);
        }
    }
    None
}

// The signs of a block that is in order otherwise, one by one.
fn check_signs(bytes: &[u8], count: u32) -> Result<u32, Refused>
    requires formed { Accepted (form_codes bytes.now) }
    requires read { count ≡ count_of bytes.now }
    ensures { Checks bytes.now (as_checked result) }
{
    let mut from = 0;
    while let Some(k) = next_signed(bytes, from, count) {
        let r = record_at(bytes, k);
        if differs(r) {
            let refusal = Refusal::Sign;
            return Err(Refused { refusal, number: k });
        }
        from = k + 1;
    }
    Ok(count)
}

// How many records a block has.
pub fn check(bytes: &[u8]) -> Result<u32, Refused>
    ensures { Checks bytes.now (as_checked result) }
{
    let count = check_form(bytes)?;
    check_signs(bytes, count)
}

// Whether the bytes are a block, and of how many records.
pub fn check_block(bytes: &[u8]) -> Checked
    ensures { Checks bytes.now result }
{
    match check(bytes) {
        Ok(count) => Checked {
            code: 0,
            number: 0,
            count,
        },
        Err(e) => Checked {
            code: e.refusal.number(),
            number: e.number,
            count: 0,
        },
    }
}

// Record k of bytes that need not be checked again.
pub fn record_at(bytes: &[u8], k: u32) -> Record
    ensures { result ≡ stored_record bytes.now k }
{
    let n = k as usize;
    let at = 9 + 80 * n;
    if bytes.len() < at + 80 {
        return BLANK;
    }
    read_record(bytes, at)
}

// A record with the code and the record number of an answer.
pub fn coded(code: u8, number: u32, r: Record) -> Fetched
    ensures { result ≡ fetched code number r }
{
    let coords = r.coords;
    Fetched {
        code,
        number,
        id: r.id,
        kind: r.kind,
        limit: r.limit,
        signed: r.signed,
        level: r.level,
        coords,
    }
}

// The answer that tells a record or a refusal.
pub fn answer(found: Result<Record, Refused>) -> Fetched
    ensures { result ≡ as_fetched found }
{
    match found {
        Ok(r) => coded(0, 0, r),
        Err(e) => coded(e.refusal.number(), e.number, BLANK),
    }
}

// Record k of a block.
pub fn fetch(bytes: &[u8], k: u32) -> Result<Record, Refused>
    ensures { Fetches bytes.now k (as_fetched result) }
{
    let count = check(bytes)?;
    if count <= k {
        return Err(Refused::from(Refusal::Absent));
    }
    Ok(record_at(bytes, k))
}

// Record k of a block, or why there is none.
pub fn fetch_record(bytes: &[u8], k: u32) -> Fetched
    ensures { Fetches bytes.now k result }
{
    answer(fetch(bytes, k))
}
