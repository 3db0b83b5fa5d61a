// The calls `check`, `fetch`, `walk` and `start`. A block or a buffer stands in the line as hex. Each is asked what stands behind its name;
// none where that is no call.
#![tactic(auto)]

use append::start_block;
use block::{Fetched, check_block, fetch_record};
use pieces::{block_and_record, buffer, coordinates, last_word, naturals};
use reader::{begin_at, step_at};
use record::Record;
use text::write;

// Calls `check_block`, and writes `code record count`.
fn check_answer(bytes: &[u8], out: &mut [u8]) -> usize {
    let told = check_block(bytes);
    let code = write::natural(out, 0, u64::from(told.code));
    let end = naturals(out, code, &[u64::from(told.number), u64::from(told.count)]);
    write::put(out, end, 10)
}

// What `fetch_record` answered: the code, the record number, the id, the kind, the level limit, the two bytes of the sign and the nine pairs.
fn fetched(out: &mut [u8], at: usize, told: Fetched) -> usize {
    let code = write::natural(out, at, u64::from(told.code));
    let head = naturals(
        out,
        code,
        &[
            u64::from(told.number),
            u64::from(told.id),
            u64::from(told.kind),
            u64::from(told.limit),
            u64::from(told.signed),
            u64::from(told.level),
        ],
    );
    coordinates(out, head, &told.coords)
}

// Calls `fetch_record`, and writes its answer.
fn fetch_answer(bytes: &[u8], k: u32, out: &mut [u8]) -> usize {
    let told = fetch_record(bytes, k);
    let end = fetched(out, 0, told);
    write::put(out, end, 10)
}

// `fetch HEX k`: `code record id kind limit signed level` and 18 numbers.
pub fn fetch_line(line: &[u8], out: &mut [u8]) -> Option<usize> {
    let mut bytes = [0u8; 65536];
    let asked = block_and_record(line, &mut bytes)?;
    Some(fetch_answer(&bytes[..asked.size], asked.k, out))
}

// Calls `start_block`, and writes `code used HEX` of the buffer afterwards.
fn start_answer(bytes: &mut [u8], out: &mut [u8]) -> usize {
    let told = start_block(bytes);
    let code = write::natural(out, 0, u64::from(told.code));
    let used = naturals(out, code, &[told.used]);
    buffer(out, used, bytes)
}

// A record, as `fetch` writes it.
fn found(out: &mut [u8], at: usize, r: Record) -> usize {
    let coords = r.coords;
    let part = write::word(out, at, b" / ");
    fetched(
        out,
        part,
        Fetched {
            code: 0,
            number: 0,
            id: r.id,
            kind: r.kind,
            limit: r.limit,
            signed: r.signed,
            level: r.level,
            coords,
        },
    )
}

// The steps of a reader from a place on, to the end.
fn steps(bytes: &[u8], from: usize, out: &mut [u8], start: usize) -> usize {
    let mut at = from;
    let mut end = start;
    for _turn in 0..65536 {
        let step = step_at(bytes, at);
        match step.next {
            Some(record) => end = found(out, end, record),
            None => return write::word(out, end, b" / end\n"),
        }
        at = step.at;
    }
    end
}

// Opens a reader, writes `code record`, and steps to the end.
fn walk_answer(bytes: &[u8], out: &mut [u8]) -> usize {
    let begun = begin_at(bytes);
    let told = begun.checked;
    let code = write::natural(out, 0, u64::from(told.code));
    let head = naturals(out, code, &[u64::from(told.number)]);
    steps(bytes, begun.at, out, head)
}

// A call on one block, which is the only word of the line.
fn on_block<F: Fn(&mut [u8], &mut [u8]) -> usize>(
    line: &[u8],
    out: &mut [u8],
    answer: F,
) -> Option<usize>
    requires { F.IsAlwaysCallable answer }
{
    let mut bytes = [0u8; 65536];
    let n = last_word(line, &mut bytes)?;
    Some(answer(&mut bytes[..n], out))
}

// A call on one block.
#[derive(Clone, Copy)]
pub enum Call {
    Check,
    Walk,
    Start,
}

// `check HEX`: `code record count`. `walk HEX`: `code record`, and each record as `fetch` writes it. `start HEX`: `code used HEX` of the
// buffer afterwards.
pub fn block_line(call: Call, line: &[u8], out: &mut [u8]) -> Option<usize> {
    match call {
        Call::Check => on_block(line, out, |bytes, answer| check_answer(bytes, answer)),
        Call::Walk => on_block(line, out, |bytes, answer| walk_answer(bytes, answer)),
        Call::Start => on_block(line, out, start_answer),
    }
}
