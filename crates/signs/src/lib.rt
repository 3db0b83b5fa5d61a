// The sign of a record: the limit under which the record is judged, the byte for a verdict, and whether the record keeps its sign.
#![tactic(auto)]

ghost use Rattle.std.specs.Prelude.{◌≡◌, cond, ◌*◌, min, eqb, length, take};
ghost use Rattle.verdict.specs.Calls.{VerdictOf};
ghost use Rattle.signs.specs.Calls.{sign_of_word, Telling};

use record::Record;
use verdict::{Judged, Word, verdict};

// How many of a record's 18 numbers are coordinates of its nodes.
pub fn used_numbers(kind: u8) -> usize
    ensures { result ≡ min (2 * kind) 18 }
{
    (2 * usize::from(kind)).min(18)
}

// The verdict of a record's element under a limit, from the record's 18 numbers.
pub fn judge(kind: u8, limit: u8, coords: &[i32]) -> Judged
    requires { length coords.now ≡ 18 }
    ensures { VerdictOf kind limit (take (2 * kind) coords.now) result }
{
    let n = used_numbers(kind);
    verdict(kind, limit, &coords[..n])
}

// The byte that stands for the word of a verdict.
// stays (4): (d) a `From<Word>` would stand where `Word` does, below what a sign is.
pub fn sign_of(word: Word) -> u8
    ensures { result ≡ sign_of_word word }
{
    match word {
        Word::Nothing => 0,
        Word::Valid => 1,
        Word::Invalid => 2,
        Word::Undecided => 0,
    }
}

// The limit under which a record is judged.
// stays (5): (a) a floor judges a record without the sign that it has, so that `sign_by` of list gives another first byte.
pub fn limit_of(limit: u8, signed: u8, level: u8) -> u8
    ensures { result ≡ cond (eqb signed 0) limit level }
{
    if signed == 0 {
        return limit;
    }
    level
}

// Whether a record is signed, and its verdict with the signed level as limit is another.
pub fn differs(r: Record) -> bool
    ensures { Telling r result }
{
    if r.signed == 0 {
        return false;
    }
    let coords = r.coords;
    let v = judge(r.kind, r.level, &coords);
    let word = v.word;
    if sign_of(word) != r.signed {
        return true;
    }
    if v.level != u32::from(r.level) {
        return true;
    }
    false
}
