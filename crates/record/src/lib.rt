// One record of an element block: its 80 bytes are read and tested.
#![tactic(auto)]

ghost use Rattle.std.specs.Prelude.{◌≡◌, true, false, ◌+◌, ◌*◌, ◌≤◌, length, take, drop};
ghost use Rattle.algebra.specs.Within.{Each};
ghost use Rattle.element.specs.Kinds.{NotStored, kind_of};
ghost use Rattle.element.specs.Refusals.{Beyond, no_more, Coded, node_codes};
ghost use Rattle.faults.specs.Refusal.{code_of};
ghost use Rattle.record.specs.Record.{most_sign, read_coords, read_record};
ghost use Rattle.record.specs.Faults.{sign_codes, record_codes};

use endian::{get_i32, get_u32};
use faults::kind::Kind;
use faults::refusal::Refusal;
use faults::{greatest_level, stored};
use points::within;

// Id, kind, level limit, the two bytes of the sign, and nine pairs of coordinates.
#[derive(Clone, Copy)]
pub struct Record {
    pub id: u32,
    pub kind: u8,
    pub limit: u8,
    pub signed: u8,
    pub level: u8,
    pub coords: [i32; 18],
}

// The record of zeros.
pub const BLANK: Record = Record {
    id: 0,
    kind: 0,
    limit: 0,
    signed: 0,
    level: 0,
    coords: [0; 18],
};

// The nine pairs of the record at a place.
fn read_coords(s: &[u8], at: usize) -> [i32; 18]
    requires { at + 80 ≤ length s.now }
    ensures { result ≡ read_coords s.now at }
{
    let mut out = [0i32; 18];
    for k in 0..18 {
        out[k] = get_i32(s, at + 8 + 4 * k);
    }
    out
}

// The record at a place.
pub fn read_record(s: &[u8], at: usize) -> Record
    requires { at + 80 ≤ length s.now }
    ensures { result ≡ read_record s.now at }
{
    let id = get_u32(s, at);
    let i = at + 4;
    let j = at + 5;
    let m = at + 6;
    let n = at + 7;
    let kind = s[i];
    let limit = s[j];
    let signed = s[m];
    let level = s[n];
    let coords = read_coords(s, at);
    Record {
        id,
        kind,
        limit,
        signed,
        level,
        coords,
    }
}

// Whether the coordinates behind those of the kind's nodes are all zero.
fn unused_zero(coords: [i32; 18], kind: u8) -> bool
    requires { kind ≤ 9 }
    ensures yes { result ≡ true → Each 0 (drop (2 * kind) coords) }
    ensures no { result ≡ false → Beyond 0 (drop (2 * kind) coords) }
{
    if kind == 6 {
        return within(&coords[12..], 0);
    }
    let n = 2 * (kind as usize);
    within(&coords[n..], 0)
}

// Refusal 4 or 21 of the kind's nodes, if any.
fn used_code(coords: [i32; 18], kind: u8) -> Result<(), Refusal>
    requires { ¬ NotStored kind }
    ensures { Coded (node_codes (kind_of kind) (take (2 * kind) coords) no_more) (code_of result) }
{
    match kind {
        6 => Kind::Six.node_code(&coords[..12]),
        8 => Kind::Eight.node_code(&coords[..16]),
        _ => Kind::Nine.node_code(&coords),
    }
}

// The greatest first byte of a record in a block of this version.
fn most_sign(version: u32) -> u8
    ensures { result ≡ most_sign version }
{
    if version == 1 {
        return 0;
    }
    2
}

// Refusal 2 or 9 of a record's two bytes, if any.
fn sign_code(version: u32, kind: u8, signed: u8, level: u8) -> Result<(), Refusal>
    ensures { Coded (sign_codes version (kind_of kind) signed level) (code_of result) }
{
    if most_sign(version) < signed {
        return Err(Refusal::Unused);
    }
    if signed == 0 {
        if level == 0 {
            return Ok(());
        }
        return Err(Refusal::Unused);
    }
    if greatest_level(kind) < level {
        return Err(Refusal::Level);
    }
    Ok(())
}

// Refusal 1, 2, 9, 4, 21 or 10 of the record at a place in a block of this version, if any; low is the least id that may stand there.
pub fn fault(s: &[u8], at: usize, version: u32, low: u64) -> Result<(), Refusal>
    requires { at + 80 ≤ length s.now }
    ensures { Coded (record_codes version s.now at low) (code_of result) }
{
    let r = read_record(s, at);
    let kind = r.kind;
    let coords = r.coords;
    if !stored(kind) {
        return Err(Refusal::Kind);
    }
    if greatest_level(kind) < r.limit {
        return Err(Refusal::Level);
    }
    sign_code(version, kind, r.signed, r.level)?;
    if !unused_zero(coords, kind) {
        return Err(Refusal::Unused);
    }
    used_code(coords, kind)?;
    if u64::from(r.id) < low {
        return Err(Refusal::Order);
    }
    Ok(())
}
