// The calls on a solver's coordinates: `scale`, `unscale`. Each is asked what stands behind its name; none where that is no call.
#![tactic(auto)]

use bits::{float_of, pattern};
use pieces::{coordinates, naturals, room_and_kind, spaced};
use solver_grid::{scale_coordinates, unscale_coordinates};
use text::read::{numbers, values};
use text::write;

mod bits;

// Calls `scale_coordinates` with this buffer, and writes the code, the number of places and the whole numbers.
fn scale_answer(kind: u8, xs: &[f64], places: &mut [i32], out: &mut [u8]) -> usize {
    let told = scale_coordinates(kind, xs, places);
    let count = told.count;
    let code = write::natural(out, 0, u64::from(told.code));
    let head = naturals(out, code, &[count as u64]);
    let end = coordinates(out, head, &places[..count]);
    write::put(out, end, 10)
}

// `scale ROOM KIND b1 b2 ..`: `code n v1 .. vn`.
pub fn scale_line(line: &[u8], out: &mut [u8]) -> Option<usize> {
    let asked = room_and_kind(line)?;
    let mut xs = [0.0; 64];
    let n = values(asked.rest, float_of, &mut xs)?;
    let mut places = [0; 64];
    Some(scale_answer(asked.kind, &xs[..n], &mut places[..asked.room], out))
}

// Calls `unscale_coordinates` with this buffer, and writes the code, the number of places and the floats.
fn unscale_answer(kind: u8, xs: &[i32], places: &mut [f64], out: &mut [u8]) -> usize {
    let told = unscale_coordinates(kind, xs, places);
    let count = told.count;
    let code = write::natural(out, 0, u64::from(told.code));
    let head = naturals(out, code, &[count as u64]);
    let end = spaced(out, head, &places[..count], pattern);
    write::put(out, end, 10)
}

// `unscale ROOM KIND v1 v2 ..`: `code n b1 .. bn`.
pub fn unscale_line(line: &[u8], out: &mut [u8]) -> Option<usize> {
    let asked = room_and_kind(line)?;
    let mut xs = [0; 64];
    let n = numbers(asked.rest, &mut xs)?;
    let mut places = [0.0; 64];
    Some(unscale_answer(asked.kind, &xs[..n], &mut places[..asked.room], out))
}
