// The first fault of a text: one search for both codes.
ghost use Rattle.std.specs.Prelude.{◌≡◌, List, [], ℕ, ◌≤◌, ◌<◌, length, drop};
ghost use Rattle.mesh_text.specs.Rows.{line};
ghost use Rattle.record_text.specs.Faults.{Silent, Wrong, Broken, Flawed, each_word};
ghost use Rattle.record_text.specs.Finds.{Whether, Finds, code_of, FlawBy, LacksBy, words_by, last_by, codes_by};

use crate::lines::{few, line_end, silent};
use crate::{Place, Test};
use mesh_text::row::{first, from, over, word_after};
use mesh_text::word::{is_number, is_whole, number};

// Whether the k-th word of a line breaks the form.
fn wrong(k: u64, w: &[u8]) -> bool
    ensures { Whether (Wrong k w.now) result }
{
    if k <= 3 {
        return 4294967295 < number(w);
    }
    !is_number(w)
}

// Whether it is a coordinate that is not whole.
fn broken(k: u64, w: &[u8]) -> bool
    ensures { Whether (Broken k w.now) result }
{
    if k <= 3 {
        return false;
    }
    let n = is_number(w);
    let h = is_whole(w);
    n & !h
}

// Whether it has the fault that is looked for.
fn flawed(test: Test, k: u64, w: &[u8]) -> bool
    ensures { Whether (FlawBy test k w.now) result }
{
    match test {
        Test::Form => wrong(k, w),
        Test::Whole => broken(k, w),
    }
}

// The first such word of the n-th line, which stands at a place and counts.
fn in_words(test: Test, t: &[u8], at: usize, n: u64) -> Option<Place>
    requires inside { at ≤ length t.now }
    requires counts { ¬ Silent (line (drop at t.now)) }
    requires numbered { 0 < n }
    ensures { Finds (each_word (code_of test) n (Flawed (FlawBy test) (line (drop at t.now))) 1 (line (drop at t.now))) (code_of test) result }
{
    let mut p = at;
    let mut k: u64 = 1;
    while p < t.len() {
        if over(from(t, p)) {
            return None;
        }
        if flawed(test, k, first(from(t, p))) {
            return Some(Place { line: n, word: k });
        }
        p = word_after(t, p);
        k += 1;
    }
    None
}

// Whether a line at a place, which counts, lacks a word that it must have.
fn lacks(test: Test, t: &[u8], at: usize) -> bool
    ensures { Whether (LacksBy test (line (drop at t.now))) result }
{
    match test {
        Test::Form => few(t, at),
        Test::Whole => false,
    }
}

// The first fault of the n-th line, which stands at a place.
fn in_line(test: Test, t: &[u8], at: usize, n: u64) -> Option<Place>
    requires inside { at ≤ length t.now }
    requires numbered { 0 < n }
    ensures { Finds (words_by test n (line (drop at t.now))) (code_of test) result }
{
    if silent(t, at) {
        return None;
    }
    if lacks(test, t, at) {
        return Some(Place { line: n, word: 0 });
    }
    in_words(test, t, at, n)
}

// The fault of bytes that stand behind the last line feed, in the n-th line.
fn in_last(test: Test, n: u64) -> Option<Place>
    requires { 0 < n }
    ensures { (l : List ℕ) → ¬ (l ≡ []) → Finds (last_by test n l) (code_of test) result }
{
    match test {
        Test::Form => Some(Place { line: n, word: 0 }),
        Test::Whole => None,
    }
}

// The first fault of a text.
pub fn fault(test: Test, t: &[u8]) -> Option<Place>
    ensures { Finds (codes_by test t.now) (code_of test) result }
{
    let mut at = 0;
    let mut n: u64 = 1;
    while at < t.len() {
        let end = line_end(t, at);
        if end == t.len() {
            return in_last(test, n);
        }
        if let Some(place) = in_line(test, t, at, n) {
            return Some(place);
        }
        at = end + 1;
        n += 1;
    }
    None
}
