// Standard input line by line, as it comes: each line is answered when it is complete.
ghost use Rattle.std.specs.Prelude.{◌≤◌, length, IfOk, IfSome};

use crate::answers::answer;
use std::io;
use std::io::{Print, Read};

// What of the buffer is filled and not yet answered, and whether it is the end of a line that was too long.
// stays (1): long is no sign that from and have are missing, they hold either way
#[derive(Clone, Copy)]
struct State {
    from: usize,
    have: usize,
    long: bool,
}

// Answers one line, and answers itself whether that was written.
fn reply<P: Print>(to: &P, line: &[u8], long: bool, out: &mut [u8]) -> io::Result<bool> {
    if long {
        to.write_all(b"?\n")?;
        return Ok(true);
    }
    let n = answer(line, out);
    if out.len() < n {
        return Ok(false);
    }
    to.write_all(&out[..n])?;
    Ok(true)
}

// The last line, where no line's end stands after it.
fn last<P: Print>(to: &P, line: &[u8], long: bool, out: &mut [u8]) -> io::Result<()> {
    if long | (line.len() != 0) {
        reply(to, line, long, out)?;
    }
    Ok(())
}

// Moves what is left to the front, and reads once behind it. None where nothing came: that was the last line.
fn more<R: Read, P: Print>(
    input: &mut R,
    to: &P,
    line: &mut [u8],
    s: State,
    out: &mut [u8],
) -> io::Result<Option<State>>
    requires { (s.from ≤ s.have) × (s.have ≤ length line.old) }
    ensures { IfOk result (λ t. IfSome t (λ u. (u.from ≤ u.have) × (u.have ≤ length line.old))) }
{
    let kept = s.have - s.from;
    if kept == line.len() {
        return Ok(Some(State {
            from: 0,
            have: 0,
            long: true,
        }));
    }
    line.copy_within(s.from..s.have, 0);
    let got = input.read(&mut line[kept..]).unwrap_or(0);
    if got == 0 {
        last(to, &line[..kept], s.long, out)?;
        return Ok(None);
    }
    Ok(Some(State {
        from: 0,
        have: kept + got,
        long: s.long,
    }))
}

// One step: a line that is there is answered; else more is read. None where there are no more.
fn step<R: Read, P: Print>(
    input: &mut R,
    to: &P,
    line: &mut [u8],
    s: State,
    out: &mut [u8],
) -> io::Result<Option<State>>
    requires { (s.from ≤ s.have) × (s.have ≤ length line.old) }
    ensures { IfOk result (λ t. IfSome t (λ u. (u.from ≤ u.have) × (u.have ≤ length line.old))) }
{
    let left = &line[s.from..s.have];
    let Some(end) = left.iter().position(|b| *b == b'\n') else {
        return more(input, to, line, s, out);
    };
    if reply(to, &left[..end], s.long, out)? {
        return Ok(Some(State {
            from: s.from + end + 1,
            have: s.have,
            long: false,
        }));
    }
    Ok(None)
}

// A proved loop has to end, and nothing says that the input does. So the loop counts its turns, up to a number that no run uses up.
pub fn run<R: Read, P: Print>(
    input: &mut R,
    to: &P,
    line: &mut [u8],
    out: &mut [u8],
) -> io::Result<()> {
    let mut s = State {
        from: 0,
        have: 0,
        long: false,
    };
    for _turn in 0..u64::MAX {
        match step(input, to, line, s, out)? {
            Some(next) => s = next,
            None => return Ok(()),
        }
    }
    Ok(())
}
