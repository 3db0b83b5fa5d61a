// The calls `scale_coordinates` and `unscale_coordinates`: a solver's coordinates on a grid of 1/1024, to whole numbers and back.
#![tactic(auto)]

ghost use Rattle.std.specs.Prelude.{◌≡◌, ◌≤◌, true, false, length};
ghost use Rattle.std.specs.List.{All};
ghost use Rattle.element.specs.Refusals.{Coded};
ghost use Rattle.faults.specs.Refusal.{code_of};
ghost use Rattle.solver_grid.specs.Grid.{OnGrid, Stands, Tells, SomeOff, Over};
ghost use Rattle.solver_grid.specs.Calls.{
  scaled,
  list_codes,
  room_codes,
  scale_codes,
  unscale_codes,
  Filled,
  ScaleCoordinates,
  UnscaleCoordinates,
};

use faults::refusal::Refusal;
use faults::stored;

// The code, the record number, and the number of places that are filled at the buffer's start.
// stays (1): 02 gives the answer these fields (`solver_grid/specs/Calls: scaled`, `solver_grid/proofs/Outcomes: scale-unique`).
#[derive(Clone, Copy)]
pub struct Scaled {
    pub code: u8,
    pub number: u32,
    pub count: usize,
}

// 1024 times x, where that is a whole number and an i32. Between the two bounds the product is exact, and so is the whole part's cast.
fn find(x: f64) -> Option<i32>
    ensures { Tells x result }
{
    if x < -2097152.0 {
        return None;
    }
    if x < 2097152.0 {
        let y = x * 1024.0;
        let n = std::num::truncating_f64_to_i64(y);
        if n as f64 == y {
            return Some(n as i32);
        }
    }
    None
}

// Whether x stands for a whole number.
fn stands(x: f64) -> bool
    ensures yes { result ≡ true → Stands x }
    ensures no { result ≡ false → ¬ Stands x }
{
    find(x).is_some()
}

// The whole number that x stands for.
fn number(x: f64) -> i32
    requires { ¬ ¬ Stands x }
    ensures { OnGrid x result }
{
    find(x).unwrap_or(0)
}

// n / 1024, exactly.
fn over(n: i32) -> f64
    ensures { Over n result }
{
    n as f64 / 1024.0
}

// Whether some number stands for none.
fn some_off(xs: &[f64]) -> bool
    ensures yes { result ≡ true → SomeOff xs.now }
    ensures no { result ≡ false → ¬ SomeOff xs.now }
{
    for x in xs {
        if !stands(*x) {
            return true;
        }
    }
    false
}

// Writes what a function makes of each number at the buffer's start.
fn put<A: Copy, B: Copy, F: Fn(A) -> B>(out: &mut [B], xs: &[A], convert: F)
    requires room { length xs.now ≤ length out.old }
    requires ready { All (F.pre convert) xs.now }
    ensures { Filled (F.post convert) (length xs.now) xs.now out.old out.new }
{
    for k in 0..xs.len() {
        out[k] = convert(xs[k]);
    }
}

// Refusal 1 or 3, or none.
fn list_code(kind: u8, many: usize) -> Result<(), Refusal>
    ensures { Coded (list_codes kind many) (code_of result) }
{
    if !stored(kind) {
        return Err(Refusal::Kind);
    }
    if many != 2 * (kind as usize) {
        return Err(Refusal::Length);
    }
    Ok(())
}

// Refusal 5, or none.
fn room_code(kind: u8, room: usize) -> Result<(), Refusal>
    ensures { Coded (room_codes kind room) (code_of result) }
{
    if room < 2 * (kind as usize) {
        return Err(Refusal::Room);
    }
    Ok(())
}

// Refusal 1, 3, 23 or 5, or none.
fn scale_code(kind: u8, xs: &[f64], room: usize) -> Result<(), Refusal>
    ensures { Coded (scale_codes kind xs.now room) (code_of result) }
{
    list_code(kind, xs.len())?;
    if some_off(xs) {
        return Err(Refusal::OffGrid);
    }
    room_code(kind, room)
}

// Refusal 1, 3 or 5, or none.
fn unscale_code(kind: u8, xs: &[i32], room: usize) -> Result<(), Refusal>
    ensures { Coded (unscale_codes kind xs.now room) (code_of result) }
{
    list_code(kind, xs.len())?;
    room_code(kind, room)
}

// An answer without a record number: no record is stored here.
fn answer(code: u8, count: usize) -> Scaled
    ensures { result ≡ scaled code count }
{
    Scaled {
        code,
        number: 0,
        count,
    }
}

// A solver's coordinates times 1024, at the start of a lent buffer.
pub fn scale_coordinates(kind: u8, xs: &[f64], out: &mut [i32]) -> Scaled
    ensures { ScaleCoordinates kind xs.now out.old result out.new }
{
    if let Err(refusal) = scale_code(kind, xs, out.len()) {
        return answer(refusal.number(), 0);
    }
    put(out, xs, number);
    answer(0, xs.len())
}

// Whole-number coordinates over 1024, at the start of a lent buffer.
// stays (2): the two calls differ in their orders of codes, types and steps; only the frame is alike.
pub fn unscale_coordinates(kind: u8, xs: &[i32], out: &mut [f64]) -> Scaled
    ensures { UnscaleCoordinates kind xs.now out.old result out.new }
{
    if let Err(refusal) = unscale_code(kind, xs, out.len()) {
        return answer(refusal.number(), 0);
    }
    put(out, xs, over);
    answer(0, xs.len())
}
