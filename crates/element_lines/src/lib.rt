// The calls on one element: `control`, `bounds`, `verdict`, `floor`. Each is asked what stands behind its name; none where that is no call.
#![tactic(auto)]

use floor::{Profile, verdict_by};
use pieces::{element, integers, naturals, room_and_kind};
use text::read::{byte, first_word, numbers};
use text::write;
use verdict::{Judged, Word};

// Calls `control_values` with this buffer, and writes the code, the number of values and the values.
fn control_answer(kind: u8, coords: &[i32], values: &mut [i64], out: &mut [u8]) -> usize {
    let told = control::control_values(kind, coords, values);
    let count = told.count;
    let code = write::natural(out, 0, u64::from(told.code));
    let head = naturals(out, code, &[count as u64]);
    let end = integers(out, head, &values[..count]);
    write::put(out, end, 10)
}

// `control ROOM KIND x y ..`: `code n v1 .. vn`.
pub fn control_line(line: &[u8], out: &mut [u8]) -> Option<usize> {
    let asked = room_and_kind(line)?;
    let mut coords = [0; 64];
    let n = numbers(asked.rest, &mut coords)?;
    let mut values = [0; 64];
    Some(control_answer(asked.kind, &coords[..n], &mut values[..asked.room], out))
}

// A float that is a whole number, as a number.
fn whole(x: f64) -> i64 {
    if x >= -9223372036854775808.0 && x < 9223372036854775808.0 {
        return std::num::truncating_f64_to_i64(x);
    }
    0
}

// Calls `solver_bounds`, and writes the code and both bounds as whole numbers.
fn bounds_answer(kind: u8, coords: &[i32], out: &mut [u8]) -> usize {
    match control::solver_bounds(kind, coords) {
        Ok(b) => {
            let end = write::word(out, 0, b"0");
            let after = integers(out, end, &[whole(b.lo), whole(b.hi)]);
            write::put(out, after, 10)
        }
        Err(refusal) => {
            let end = write::natural(out, 0, u64::from(refusal.number()));
            write::word(out, end, b" 0 0\n")
        }
    }
}

// `bounds KIND x y ..`: `code lo hi`.
pub fn bounds_line(line: &[u8], out: &mut [u8]) -> Option<usize> {
    let (kind, rest) = first_word(line);
    let mut coords = [0; 64];
    let n = numbers(rest, &mut coords)?;
    Some(bounds_answer(byte(kind)?, &coords[..n], out))
}

// The code, and the name of the verdict.
fn named(out: &mut [u8], code: u8, word: Word) -> usize {
    let end = write::natural(out, 0, u64::from(code));
    let space = write::put(out, end, 32);
    lines::name(out, space, word)
}

// Writes the code, the verdict, the level, i, j, the value and the cells.
fn judged(told: Judged, out: &mut [u8]) -> usize {
    let head = named(out, told.code, told.word);
    let point = naturals(
        out,
        head,
        &[u64::from(told.level), u64::from(told.i), u64::from(told.j)],
    );
    let shown = integers(out, point, &[told.value]);
    let end = naturals(out, shown, &[u64::from(told.cells)]);
    write::put(out, end, 10)
}

// Calls the verdict of a profile with `KIND LIMIT x y ..`.
fn judged_line(line: &[u8], out: &mut [u8], by: Profile) -> Option<usize> {
    let mut coords = [0; 64];
    let asked = element(line, &mut coords)?;
    let told = verdict_by(by, asked.kind, asked.limit, &coords[..asked.count]);
    Some(judged(told, out))
}

// `verdict KIND LIMIT x y ..`: `code verdict level i j value cells`.
pub fn verdict_line(line: &[u8], out: &mut [u8]) -> Option<usize> {
    judged_line(line, out, Profile::Plain)
}

// `floor P KIND LIMIT x y ..`: the same.
pub fn floor_line(line: &[u8], out: &mut [u8]) -> Option<usize> {
    let (percent, rest) = first_word(line);
    judged_line(rest, out, Profile::Floor(byte(percent)?))
}
