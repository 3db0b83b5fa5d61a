// The call `append_text`.
#![tactic(auto)]

mod fill;
mod pass;
mod values;

ghost use Rattle.std.specs.Prelude.{◌≡◌};
ghost use Rattle.faults.specs.Refusal.{number_of};
ghost use Rattle.append_text.specs.Calls.{word_of, as_texted, AppendsText};

use block::{Refused, check};
use faults::refusal::Refusal;
use record_text::find::fault;
use record_text::{Place, Test};

// The code, the record number, the line and the word of the text, how many bytes are used, and how many records were appended.
// stays (1): 02 gives the answer these fields, and a refusal zero in all but the first two (`append_text/specs/Calls: refusal`).
#[derive(Clone, Copy)]
pub struct Texted {
    pub code: u8,
    pub number: u32,
    pub line: u64,
    pub word: u64,
    pub used: u64,
    pub appended: u32,
}

// How many bytes are used, and how many records were appended.
#[derive(Clone, Copy)]
pub struct Added {
    pub used: u64,
    pub appended: u32,
}

// Why the record of a line is refused, and the number of that line.
#[derive(Clone, Copy)]
pub struct RefusedLine {
    pub refusal: Refusal,
    pub line: u64,
}

// Why a call is refused, and what it names: a record number, a line and a word of the text; 0 for none of each.
#[derive(Clone, Copy)]
pub struct RefusedAt {
    pub refusal: Refusal,
    pub number: u32,
    pub line: u64,
    pub word: u64,
}

// The word of a line that names the refusal of its record.
fn word_of(refusal: Refusal) -> u64
    ensures { result ≡ word_of (number_of refusal) }
{
    match refusal {
        Refusal::Kind => 2,
        Refusal::Level => 3,
        Refusal::Order => 1,
        _ => 0,
    }
}

impl From<Refused> for RefusedAt {
    ghost from_gives = { λ e r. r ≡ record { refusal = e.refusal; number = e.number; line = 0; word = 0 } };

    fn from(e: Refused) -> RefusedAt {
        RefusedAt {
            refusal: e.refusal,
            number: e.number,
            line: 0,
            word: 0,
        }
    }
}

impl From<RefusedLine> for RefusedAt {
    ghost from_gives = { λ e r. r ≡ record { refusal = e.refusal; number = 0; line = e.line; word = word_of (number_of e.refusal) } };

    fn from(e: RefusedLine) -> RefusedAt {
        RefusedAt {
            refusal: e.refusal,
            number: 0,
            line: e.line,
            word: word_of(e.refusal),
        }
    }
}

// A refusal of the text itself.
fn at(refusal: Refusal, place: Place) -> RefusedAt
    ensures { result ≡ record { refusal = refusal; number = 0; line = place.line; word = place.word } }
{
    RefusedAt {
        refusal,
        number: 0,
        line: place.line,
        word: place.word,
    }
}

// The answer of the call.
fn answer(done: Result<Added, RefusedAt>) -> Texted
    ensures { result ≡ as_texted done }
{
    match done {
        Ok(added) => Texted {
            code: 0,
            number: 0,
            line: 0,
            word: 0,
            used: added.used,
            appended: added.appended,
        },
        Err(e) => Texted {
            code: e.refusal.number(),
            number: e.number,
            line: e.line,
            word: e.word,
            used: 0,
            appended: 0,
        },
    }
}

// The records of a text, a line each, appended to the block in the first `used` bytes of a lent buffer.
fn append(text: &[u8], buffer: &mut [u8], used: u64) -> Result<Added, RefusedAt>
    ensures { AppendsText text.now buffer.old used (as_texted result) buffer.new }
{
    if let Some(place) = fault(Test::Form, text) {
        return Err(at(Refusal::Form, place));
    }
    if let Some(place) = fault(Test::Whole, text) {
        return Err(at(Refusal::Fraction, place));
    }
    let n = used as usize;
    if buffer.len() < n {
        return Err(RefusedAt::from(Refused::from(Refusal::Room)));
    }
    let count = check(&buffer[..n])?;
    fill::append_all(text, buffer, used, count)
}

// The records of a text, a line each, appended to the block in the first `used` bytes of a lent buffer.
pub fn append_text(text: &[u8], buffer: &mut [u8], used: u64) -> Texted
    ensures { AppendsText text.now buffer.old used result buffer.new }
{
    answer(append(text, buffer, used))
}
