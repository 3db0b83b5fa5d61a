// A reader that holds the bytes of a block, and walks from its first record to its last.
#![tactic(auto)]

ghost use Rattle.std.specs.Prelude.{◌≡◌};
ghost use Rattle.element.specs.Refusals.{Accepted};
ghost use Rattle.block.specs.Block.{place};
ghost use Rattle.block.specs.Faults.{block_codes};
ghost use Rattle.block.specs.Calls.{as_fetched, Fetches};
ghost use Rattle.reader.specs.Steps.{step_at, Opens};
ghost use Rattle.reader.specs.Runs.{OpensReader, StepsReader};

use block::{Checked, Fetched, Refused, answer, check_block, coded};
use faults::refusal::Refusal;
use record::{BLANK, Record, read_record};

// The bytes of a block, and where the next record begins.
#[derive(Clone, Copy)]
pub struct Reader<'a> {
    pub slice: &'a [u8],
    pub place: usize,
}

// What a step on a plain slice finds, a record or the end, and where the next one begins.
#[derive(Clone, Copy)]
pub struct Found {
    pub next: Option<Record>,
    pub at: usize,
}

// What a step finds, and the reader for the next one.
// stays (2): (a) beside `Found`, as `Opened` beside `Begun`: `StepsReader`, `OpensReader` and the runs of reader/specs/Runs hold a reader.
#[derive(Clone, Copy)]
pub struct Stepped<'a> {
    pub next: Option<Record>,
    pub reader: Reader<'a>,
}

// What the check of a plain slice answers, and where the first record begins.
#[derive(Clone, Copy)]
pub struct Begun {
    pub checked: Checked,
    pub at: usize,
}

// What the check answers, and the reader for the first step.
#[derive(Clone, Copy)]
pub struct Opened<'a> {
    pub checked: Checked,
    pub reader: Reader<'a>,
}

// The record at a place, or the end.
pub fn step_at(s: &[u8], at: usize) -> Found
    ensures { result ≡ step_at s.now at }
{
    if s.len().saturating_sub(at) < 80 {
        return Found { next: None, at };
    }
    let r = read_record(s, at);
    Found {
        next: Some(r),
        at: at + 80,
    }
}

// The check, and the place of the first record; of a refused block the place behind all bytes.
pub fn begin_at(s: &[u8]) -> Begun
    ensures { Opens s.now result.checked result.at }
{
    let checked = check_block(s);
    if checked.code == 0 {
        return Begun { checked, at: 9 };
    }
    Begun {
        checked,
        at: s.len(),
    }
}

// A reader of the bytes.
pub fn open_reader<'a>(bytes: &'a [u8]) -> Opened<'a>
    ensures { OpensReader bytes.entry result }
{
    let f = begin_at(bytes);
    Opened {
        checked: f.checked,
        reader: Reader {
            slice: bytes,
            place: f.at,
        },
    }
}

// The next record, or the end.
pub fn step_reader<'a>(r: Reader<'a>) -> Stepped<'a>
    ensures { StepsReader r.entry result }
{
    let f = step_at(r.slice, r.place);
    Stepped {
        next: f.next,
        reader: Reader {
            slice: r.slice,
            place: f.at,
        },
    }
}

// Record k of a block, by steps from the first record on, which begins at a place.
fn fetch_by_steps(bytes: &[u8], first: usize, k: u32) -> Result<Record, Refused>
    requires { Accepted (block_codes bytes.now) × (first ≡ place 0) }
    ensures { Fetches bytes.now k (as_fetched result) }
{
    let mut at = first;
    for j in 0..k {
        let f = step_at(bytes, at);
        let Some(_) = f.next else {
            return Err(Refused::from(Refusal::Absent));
        };
        at = f.at;
    }
    let f = step_at(bytes, at);
    match f.next {
        Some(r) => Ok(r),
        None => Err(Refused::from(Refusal::Absent)),
    }
}

// Record k, by the steps of a reader from the first record on.
pub fn read_by_steps(bytes: &[u8], k: u32) -> Fetched
    ensures { Fetches bytes.now k result }
{
    let b = begin_at(bytes);
    let c = b.checked;
    if c.code != 0 {
        return coded(c.code, c.number, BLANK);
    }
    answer(fetch_by_steps(bytes, b.at, k))
}
