// The lines of the list, written into a lent buffer.
#![tactic(auto)]

ghost use Rattle.std.specs.Prelude.{[], ◌∷◌, ◌≤◌, length, map};
ghost use Rattle.text.specs.Writing.{Wrote, decimal};
ghost use Rattle.lines.specs.Words.{after, line, spaced, first_line, ending, refused_line, refused_record};
ghost use Rattle.lines.specs.Words as spec;
ghost use Rattle.lines.specs.Names.{name_of, judged_line, record_line};

use text::write;
use verdict::{Judged, Word};

// A space and a number.
fn number(out: &mut [u8], at: usize, n: u64) -> usize
    ensures { Wrote out.old at (32 ∷ decimal n) out.new result }
{
    let end = write::put(out, at, b' ');
    write::natural(out, end, n)
}

// Numbers with a space before each.
fn numbers(out: &mut [u8], from: usize, values: &[u64]) -> usize
    ensures { Wrote out.old from (spaced values.now) out.new result }
{
    let mut at = from;
    for n in values {
        at = number(out, at, *n);
    }
    at
}

// A line that is a word and numbers.
fn word_line(out: &mut [u8], at: usize, word: &[u8], values: &[u64]) -> usize
    ensures { Wrote out.old at (line (spec.word word.now) (map spec.number values.now)) out.new result }
{
    let first = write::word(out, at, word);
    let last = numbers(out, first, values);
    write::put(out, last, b'\n')
}

// The first line of a list of n records, of a block of a version.
pub fn first_line(out: &mut [u8], at: usize, version: u64, n: u64) -> usize
    ensures { Wrote out.old at (first_line version n) out.new result }
{
    word_line(out, at, b"CEL", &[version, n])
}

// The one line of a refused block.
pub fn refused_line(out: &mut [u8], at: usize, code: u64, which: u64) -> usize
    ensures { Wrote out.old at (refused_line code which) out.new result }
{
    word_line(out, at, b"refused", &[code, which])
}

// The end of the line of a record.
fn line_end(out: &mut [u8], at: usize, signed: u8) -> usize
    ensures { Wrote out.old at (after (ending signed)) out.new result }
{
    if signed == 0 {
        return write::put(out, at, b'\n');
    }
    write::word(out, at, b" signed\n")
}

// The name of a verdict.
pub fn name(out: &mut [u8], at: usize, word: Word) -> usize
    ensures { Wrote out.old at (name_of word) out.new result }
{
    match word {
        Word::Nothing => write::put(out, at, b'-'),
        Word::Valid => write::word(out, at, b"valid"),
        Word::Invalid => write::word(out, at, b"invalid"),
        Word::Undecided => write::word(out, at, b"undecided"),
    }
}

// The line of a record with its verdict: at most 88 characters.
fn verdict_line(out: &mut [u8], at: usize, id: u32, kind: u8, v: Judged, signed: u8) -> usize
    ensures line { Wrote out.old at (judged_line id kind v signed) out.new result }
    ensures short { length (judged_line id kind v signed) ≤ 88 }
{
    let a = write::natural(out, at, id as u64);
    let b = number(out, a, kind as u64);
    let c = write::put(out, b, b' ');
    let d = name(out, c, v.word);
    let e = numbers(
        out,
        d,
        &[v.level as u64, v.i as u64, v.j as u64, v.cells as u64],
    );
    line_end(out, e, signed)
}

// The line of a record that is refused by a code.
fn refused_record(out: &mut [u8], at: usize, id: u32, kind: u8, code: u8) -> usize
    ensures line { Wrote out.old at (refused_record id kind code) out.new result }
    ensures short { length (refused_record id kind code) ≤ 88 }
{
    let a = write::natural(out, at, id as u64);
    let b = number(out, a, kind as u64);
    let c = write::word(out, b, b" refused");
    let d = number(out, c, code as u64);
    write::put(out, d, b'\n')
}

// The line of a record with the answer of a call that judges it: its verdict, or the code by which it is refused. At most 88 characters.
pub fn record_line(out: &mut [u8], at: usize, id: u32, kind: u8, v: Judged, signed: u8) -> usize
    ensures line { Wrote out.old at (record_line id kind v signed) out.new result }
    ensures short { length (record_line id kind v signed) ≤ 88 }
{
    if v.code != 0 {
        return refused_record(out, at, id, kind, v.code);
    }
    verdict_line(out, at, id, kind, v, signed)
}
