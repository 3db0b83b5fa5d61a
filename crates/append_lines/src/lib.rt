// The call `append`. The buffer stands in the line as hex. It is asked what stands behind its name; none where that is no call.
#![tactic(auto)]

use append::append_record;
use pieces::{buffer, naturals};
use text::read::{byte, first_word, hex, natural, numbers, up_to};
use text::write;

// The numbers of an append before those of the coordinates, and the line behind them.
#[derive(Clone, Copy)]
struct Asked<'a> {
    used: u64,
    id: u32,
    kind: u8,
    limit: u8,
    rest: &'a [u8],
}

// Reads these numbers.
fn numbers_asked(line: &[u8]) -> Option<Asked<'_>> {
    let (used, line) = first_word(line);
    let (id, line) = first_word(line);
    let (kind, line) = first_word(line);
    let (limit, rest) = first_word(line);
    Some(Asked {
        used: natural(used)?,
        id: up_to(id, u32::MAX)?,
        kind: byte(kind)?,
        limit: byte(limit)?,
        rest,
    })
}

// Calls `append_record`, and writes `code record used HEX` of the buffer afterwards.
fn append_answer(bytes: &mut [u8], a: Asked<'_>, coords: &[i32], out: &mut [u8]) -> usize {
    let told = append_record(bytes, a.used, a.id, a.kind, a.limit, coords);
    let code = write::natural(out, 0, u64::from(told.code));
    let used = naturals(out, code, &[u64::from(told.number), told.used]);
    buffer(out, used, bytes)
}

// `append HEX used id kind limit n x y ..`: `code record used HEX` of the buffer afterwards.
pub fn append_line(line: &[u8], out: &mut [u8]) -> Option<usize> {
    let (block, behind) = first_word(line);
    let a = numbers_asked(behind)?;
    let (count, places) = first_word(a.rest);
    let mut coords = [0; 64];
    let m = numbers(places, &mut coords)?;
    if natural(count)? != m as u64 {
        return None;
    }
    let mut bytes = [0u8; 65536];
    let n = hex(block, &mut bytes)?;
    Some(append_answer(&mut bytes[..n], a, &coords[..m], out))
}
