// The calls `write_sheet` and `check_sheet` (02, Ask 5).
#![tactic(auto)]

ghost use Rattle.std.specs.Prelude.{◌≡◌, eqb};
ghost use Rattle.element.specs.Kinds.{NotStored, kind_of};
ghost use Rattle.element.specs.Control.{control_values};
ghost use Rattle.element.specs.Origin.{Inside};
ghost use Rattle.element.specs.Refusals.{Accepted, stored_codes};
ghost use Rattle.faults.specs.Refusal.{code_of};
ghost use Rattle.text.specs.Writing.{Wrote};
ghost use Rattle.sheet_cells.specs.Either.{values_by};
ghost use Rattle.sheet.specs.Steps.{Headed, trimmed_bytes};
ghost use Rattle.sheet.specs.Calls.{checked, as_written, ChecksSheet, WritesSheet};

use faults::refusal::Refusal;
use faults::stored_code;
use sheet_cells::either::sixteen;
use sheet_cells::{read, write};
use text::write::word;
use verdict::is_valid;

// The code, and the record number.
// stays (1): 02 gives the answer these fields, and a refusal zero in all but the first two (`sheet/specs/Calls: checked`).
#[derive(Clone, Copy)]
pub struct CheckedSheet {
    pub code: u8,
    pub number: u32,
}

// The code, the record number, and the number of bytes at the buffer's start.
// stays (1): 02 gives the answer these fields, and a refusal zero in all but the first two (`sheet/specs/Calls: written`).
#[derive(Clone, Copy)]
pub struct WrittenSheet {
    pub code: u8,
    pub number: u32,
    pub length: usize,
}

// The control values of an element, a triangle's first.
// stays (1): a sheet has no element of ten nodes, so that a match on `Kind` would have an arm here that is never taken.
fn values(kind: u8, coords: &[i32]) -> [i64; 16]
    requires { ¬ NotStored kind × Inside (kind_of kind) coords.now }
    ensures { values_by (eqb kind 6) result ≡ control_values (kind_of kind) coords.now }
{
    if kind == 6 {
        return sixteen(triangle::values(coords));
    }
    quad::values(coords, kind == 8)
}

// Whether a sheet begins with the mark CPS and the version 1.
fn headed(sheet: &[u8]) -> bool
    ensures { Headed sheet.now result }
{
    sheet.starts_with(b"CPS\x01\0")
}

// Refusal 1, 2, 3, 4, 21 or 20, or none, of a sheet, of any writer, that is to show that an element is valid.
fn sheet_code(kind: u8, limit: u8, coords: &[i32], sheet: &[u8]) -> Result<(), Refusal>
    ensures { ChecksSheet kind limit coords.now sheet.now (checked (code_of result)) }
{
    stored_code(kind, limit, coords)?;
    if !headed(sheet) {
        return Err(Refusal::NotValid);
    }
    let c = values(kind, coords);
    let Some(end) = read::cell(kind == 6, c, limit as u32, sheet, 5) else {
        return Err(Refusal::NotValid);
    };
    if end == sheet.len() {
        return Ok(());
    }
    Err(Refusal::NotValid)
}

// Whether a sheet, of any writer, shows that an element is valid: code 0, else 20, or the verdict's own. No record is stored here.
pub fn check_sheet(kind: u8, limit: u8, coords: &[i32], sheet: &[u8]) -> CheckedSheet
    ensures { ChecksSheet kind limit coords.now sheet.now result }
{
    match sheet_code(kind, limit, coords, sheet) {
        Ok(_) => CheckedSheet { code: 0, number: 0 },
        Err(e) => CheckedSheet {
            code: e.number(),
            number: 0,
        },
    }
}

// Writes the sheet that keeps what passes and cuts any other, if there is room for it: the place after it.
fn write_all(kind: u8, limit: u8, coords: &[i32], out: &mut [u8]) -> usize
    requires { Accepted (stored_codes kind limit coords.now) }
    ensures { Wrote out.old 0 (trimmed_bytes (kind_of kind) limit coords.now) out.new result }
{
    let c = values(kind, coords);
    let at = word(out, 0, b"CPS\x01\0");
    write::cell(kind == 6, c, limit as u32, out, at)
}

// Writes the sheet of the least cutting of a valid element, and tells its length. A cutting into n cells has (4n - 1) / 3 bytes, so that
// the room is tested before anything is written.
fn write_least(kind: u8, limit: u8, coords: &[i32], out: &mut [u8]) -> Result<usize, Refusal>
    ensures { WritesSheet kind limit coords.now out.old (as_written result) out.new }
{
    stored_code(kind, limit, coords)?;
    let judged = verdict::verdict(kind, limit, coords);
    if !is_valid(judged.word) {
        return Err(Refusal::NotValid);
    }
    let cells = judged.cells as usize;
    if out.len() < 5 + (4 * cells - 1) / 3 {
        return Err(Refusal::Room);
    }
    Ok(write_all(kind, limit, coords, out))
}

// Writes the sheet of the least cutting of a valid element to the start of a lent buffer.
pub fn write_sheet(kind: u8, limit: u8, coords: &[i32], out: &mut [u8]) -> WrittenSheet
    ensures { WritesSheet kind limit coords.now out.old result out.new }
{
    match write_least(kind, limit, coords, out) {
        Ok(length) => WrittenSheet {
            code: 0,
            number: 0,
            length,
        },
        Err(e) => WrittenSheet {
            code: e.number(),
            number: 0,
            length: 0,
        },
    }
}
