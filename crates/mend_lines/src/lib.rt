// The calls `straighten` and `mend`. A block stands in the line as hex. Each is asked what stands behind its name; none where that is no
// call.
#![tactic(auto)]

use mending::straighten_record;
use pieces::{block_and_record, buffer, coordinates, element, naturals};
use straighten::{Moved, straighten};
use text::write;

// What became of a middle node: `replaced oldx oldy newx newy`, where 1 stands for a node that was replaced, 0 for one that was kept.
fn moved(out: &mut [u8], from: usize, m: Moved) -> usize {
    let old = m.old;
    let new = m.new;
    let at = naturals(out, from, &[u64::from(m.replaced)]);
    coordinates(out, at, &[old.x, old.y, new.x, new.y])
}

// The same of the three.
fn middles(out: &mut [u8], from: usize, m01: Moved, m12: Moved, m02: Moved) -> usize {
    let first = moved(out, from, m01);
    let second = moved(out, first, m12);
    moved(out, second, m02)
}

// Calls `straighten`, and writes the code, the coordinates and what became of the middle nodes.
fn straighten_answer(kind: u8, limit: u8, coords: &[i32], out: &mut [u8]) -> usize {
    let told = straighten(kind, limit, coords);
    let code = write::natural(out, 0, u64::from(told.code));
    let at = coordinates(out, code, &told.coords);
    let end = middles(out, at, told.m01, told.m12, told.m02);
    write::put(out, end, 10)
}

// `straighten KIND LIMIT x y ..`: `code`, twelve coordinates, and `replaced oldx oldy newx newy` of M01, M12 and M02.
pub fn straighten_line(line: &[u8], out: &mut [u8]) -> Option<usize> {
    let mut coords = [0; 64];
    let asked = element(line, &mut coords)?;
    Some(straighten_answer(asked.kind, asked.limit, &coords[..asked.count], out))
}

// Calls `straighten_record`, and writes its answer and the block afterwards.
fn mend_answer(bytes: &mut [u8], k: u32, out: &mut [u8]) -> usize {
    let told = straighten_record(bytes, k);
    let code = write::natural(out, 0, u64::from(told.code));
    let at = naturals(out, code, &[u64::from(told.number)]);
    let end = middles(out, at, told.m01, told.m12, told.m02);
    buffer(out, end, bytes)
}

// `mend HEX k`: `code record`, `replaced oldx oldy newx newy` of M01, M12 and M02, and HEX of the block afterwards.
pub fn mend_line(line: &[u8], out: &mut [u8]) -> Option<usize> {
    let mut bytes = [0u8; 65536];
    let asked = block_and_record(line, &mut bytes)?;
    Some(mend_answer(&mut bytes[..asked.size], asked.k, out))
}
