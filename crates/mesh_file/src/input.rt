// Standard input as one text. It is read into a room of a megabyte first, so that a usual text needs no more than the usual stack, and
// only one that fills it into the room of 64 MB, with one byte more that tells a longer text.
ghost use Rattle.std.specs.Prelude.{◌≤◌, ◌<◌, length};

use crate::answer::answer;
use std::io;
use std::io::{Print, Read};
use streams::input::{Failed, fill};

// Copies the first bytes of a text into a room, and answers how many.
fn copy_in(first: &[u8], room: &mut [u8]) -> usize
    ensures { result ≤ length room.old }
{
    let n = first.len().min(room.len());
    room[..n].copy_from_slice(&first[..n]);
    n
}

// Reads on behind the first bytes of a text.
fn read_on<R: Read>(input: &mut R, first: &[u8], room: &mut [u8]) -> Result<usize, Failed> {
    let have = copy_in(first, room);
    fill(input, room, have)
}

// Answers for the text in a room, unless the room is full: it may not hold all of the text then. Answers itself whether it is.
fn settle<P: Print>(
    to: &P,
    room: &[u8],
    read: Result<usize, Failed>,
    limit: u8,
) -> io::Result<bool> {
    match read {
        Err(_failed) => to.write_all(b"failed\n")?,
        Ok(have) if have < room.len() => answer(to, &room[..have], limit)?,
        Ok(_have) => return Ok(true),
    }
    Ok(false)
}

// The same in the last room that there is.
fn settle_last<P: Print>(
    to: &P,
    room: &[u8],
    read: Result<usize, Failed>,
    limit: u8,
) -> io::Result<()> {
    if settle(to, room, read, limit)? {
        to.write_all(b"long\n")?;
    }
    Ok(())
}

// Reads the text into the large room, behind its first bytes.
#[tactic(none)]
fn in_large<R: Read, P: Print>(input: &mut R, to: &P, first: &[u8], limit: u8) -> io::Result<()> {
    let mut room = [0u8; 67108865];
    let read = read_on(input, first, &mut room);
    settle_last(to, &room, read, limit)
}

// Reads the text, with so many rooms left: two, the small one first; one, the large one. The compiler takes no large array into a
// function that calls itself, so the large room is on the stack only while it is used.
// stays (1): rooms is a number, as it is the measure by which the recursion is proved to end
#[tactic(none)]
pub fn read_in<R: Read, P: Print>(
    input: &mut R,
    to: &P,
    first: &[u8],
    rooms: u8,
    limit: u8,
) -> io::Result<()> {
    if rooms < 2 {
        return in_large(input, to, first, limit);
    }
    let mut room = [0u8; 1048576];
    let read = fill(input, &mut room, 0);
    if settle(to, &room, read, limit)? {
        return read_in(input, to, &room, rooms - 1, limit);
    }
    Ok(())
}
