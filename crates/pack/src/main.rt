// Makes an element block of the lines on standard input, `id kind limit x y ..`, a record each. The first line that is written is
// `code record line word used appended`; behind it, where the code is 0, stands the block. The line is one word where nothing was
// tried: `failed` where a read fails, `long` where the text has more than 1,048,576 bytes.
#![tactic(auto)]

mod answer;

use std::io;
use std::io::Print;
use streams::input::{Failed, fill};

// Answers for the text in a room, which it does not fill.
fn settle<P: Print>(to: &P, room: &[u8], read: Result<usize, Failed>) -> io::Result<()> {
    match read {
        Err(_failed) => to.write_all(b"failed\n"),
        Ok(have) if have < room.len() => answer::answer(to, &room[..have]),
        Ok(_have) => to.write_all(b"long\n"),
    }
}

#[tactic(none)]
fn main(rt: HostRuntime) -> io::Result<()> {
    // one byte more than a text may have tells a longer one
    let mut room = [0u8; 1048577];
    let read = fill(&mut rt.stdin(), &mut room, 0);
    settle(&rt, &room, read)
}
