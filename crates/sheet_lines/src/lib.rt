// The calls `sheet` and `checksheet`. A sheet stands in the line as hex. Each is asked what stands behind its name; none where that is no
// call.
#![tactic(auto)]

use pieces::{buffer, element, naturals};
use sheet::{check_sheet, write_sheet};
use text::read::{first_word, hex, up_to};
use text::write;

// Calls `write_sheet` with this buffer, and writes the code, the length and the sheet.
fn sheet_answer(kind: u8, limit: u8, coords: &[i32], bytes: &mut [u8], out: &mut [u8]) -> usize {
    let told = write_sheet(kind, limit, coords, bytes);
    let length = told.length;
    let code = write::natural(out, 0, u64::from(told.code));
    let end = naturals(out, code, &[length as u64]);
    buffer(out, end, &bytes[..length])
}

// `sheet ROOM KIND LIMIT x y ..`: `code length HEX`, of a buffer of at most 64,000 bytes.
pub fn sheet_line(line: &[u8], out: &mut [u8]) -> Option<usize> {
    let (room, rest) = first_word(line);
    let places = up_to(room, 64000)? as usize;
    let mut coords = [0; 64];
    let asked = element(rest, &mut coords)?;
    let mut bytes = [0u8; 64000];
    Some(sheet_answer(
        asked.kind,
        asked.limit,
        &coords[..asked.count],
        &mut bytes[..places],
        out,
    ))
}

// Calls `check_sheet`, and writes the code.
fn checked(kind: u8, limit: u8, coords: &[i32], sheet: &[u8], out: &mut [u8]) -> usize {
    let told = check_sheet(kind, limit, coords, sheet);
    let end = write::natural(out, 0, u64::from(told.code));
    write::put(out, end, 10)
}

// `checksheet HEX KIND LIMIT x y ..`: `code`, of a sheet of at most 65,536 bytes.
pub fn checksheet_line(line: &[u8], out: &mut [u8]) -> Option<usize> {
    let (sheet, rest) = first_word(line);
    let mut bytes = [0u8; 65536];
    let size = hex(sheet, &mut bytes)?;
    let mut coords = [0; 64];
    let asked = element(rest, &mut coords)?;
    Some(checked(
        asked.kind,
        asked.limit,
        &coords[..asked.count],
        &bytes[..size],
        out,
    ))
}
