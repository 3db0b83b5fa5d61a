// The calls `sign_record`, `to_version_2` and `to_version_1`.
#![tactic(auto)]

ghost use Rattle.std.specs.Prelude.{◌≡◌, ◌≤◌, length};
ghost use Rattle.block.specs.Calls.{as_checked, ChecksBy};
ghost use Rattle.block.specs.Changes.{with_version};
ghost use Rattle.signing.specs.Orders.{of_version, older_codes};
ghost use Rattle.signing.specs.Calls.{as_changed, Newer, Older, Signs};
ghost use Rattle.signing.specs.Steps.{Signable};

use block::{Refused, check, next_signed, record_at, version_code};
use faults::refusal::Refusal;
use signs::{judge, limit_of, sign_of};

// The code, and the record number.
// stays (1): 02 gives the answer these fields, and a refusal zero in all but the first two (`signing/specs/Calls: NotChanged`).
#[derive(Clone, Copy)]
pub struct Changed {
    pub code: u8,
    pub number: u32,
}

// The two bytes of a sign.
#[derive(Clone, Copy)]
pub struct Sign {
    pub signed: u8,
    pub level: u8,
}

// The answer of a call that is done, or refused.
fn answer(done: Result<(), Refused>) -> Changed
    ensures { result ≡ as_changed done }
{
    match done {
        Ok(_) => Changed { code: 0, number: 0 },
        Err(e) => Changed {
            code: e.refusal.number(),
            number: e.number,
        },
    }
}

// How many records a block of this version has.
fn check_version(bytes: &[u8], version: u32) -> Result<u32, Refused>
    ensures { ChecksBy (of_version version bytes.now) bytes.now (as_checked result) }
{
    version_code(bytes, version, version)?;
    check(bytes)
}

// How many records a block of version 2 has, none of which is signed.
fn check_unsigned(bytes: &[u8]) -> Result<u32, Refused>
    ensures { ChecksBy (older_codes bytes.now) bytes.now (as_checked result) }
{
    let count = check_version(bytes, 2)?;
    if let Some(k) = next_signed(bytes, 0, count) {
        let refusal = Refusal::Signed;
        return Err(Refused { refusal, number: k });
    }
    Ok(count)
}

// The version, written into a header.
fn put_version(block: &mut [u8], version: u16)
    requires { 9 ≤ length block.old }
    ensures { block.new ≡ with_version block.old version }
{
    block[3..5].copy_from_slice(&version.to_le_bytes());
}

// The steps of `to_version_2`.
fn newer(block: &mut [u8]) -> Result<(), Refused>
    ensures { Newer block.old (as_changed result) block.new }
{
    check_version(block, 1)?;
    put_version(block, 2);
    Ok(())
}

// A block of version 1 becomes one of version 2.
pub fn to_version_2(block: &mut [u8]) -> Changed
    ensures { Newer block.old result block.new }
{
    answer(newer(block))
}

// The steps of `to_version_1`.
// stays (2): it differs from `newer` in what is checked and in the version; with the check as a closure it would be no shorter.
fn older(block: &mut [u8]) -> Result<(), Refused>
    ensures { Older block.old (as_changed result) block.new }
{
    check_unsigned(block)?;
    put_version(block, 1);
    Ok(())
}

// A block of version 2 without a signed record becomes one of version 1.
pub fn to_version_1(block: &mut [u8]) -> Changed
    ensures { Older block.old result block.new }
{
    answer(older(block))
}

// The sign of record k.
fn sign_for(bytes: &[u8], k: u32) -> Result<Sign, Refused>
    ensures { Signable bytes.now k result }
{
    let count = check_version(bytes, 2)?;
    if count <= k {
        return Err(Refused::from(Refusal::Absent));
    }
    let r = record_at(bytes, k);
    let limit = limit_of(r.limit, r.signed, r.level);
    let v = judge(r.kind, limit, &r.coords);
    let word = v.word;
    let signed = sign_of(word);
    if signed == 0 {
        let refusal = Refusal::Undecided;
        return Err(Refused { refusal, number: k });
    }
    Ok(Sign {
        signed,
        level: v.level as u8,
    })
}

// The steps of `sign_record`.
fn put_sign(block: &mut [u8], k: u32) -> Result<(), Refused>
    ensures { Signs block.old k (as_changed result) block.new }
{
    let m = sign_for(block, k)?;
    let n = k as usize;
    let at = 15 + 80 * n;
    block[at..at + 2].copy_from_slice(&[m.signed, m.level]);
    Ok(())
}

// The verdict of record k and its level, written into the record's two bytes.
pub fn sign_record(block: &mut [u8], k: u32) -> Changed
    ensures { Signs block.old k result block.new }
{
    answer(put_sign(block, k))
}
