// Makes an element block of the Gmsh text on standard input, all with the level limit that is the first argument. The first line that is
// written is `code record used appended passed`; behind it, where the code is 0, stands the block. The line is one word where nothing
// was judged: `limit` where the argument is no number from 0 to 255, `failed` where a read fails, `long` where the text has more than
// 67,108,864 bytes.
#![tactic(auto)]

mod answer;
mod input;

use std::env::Env;
use std::io;
use std::io::Print;
use text::read::{byte, first_word};

// The level limit, if one is given.
fn level_limit<E: Env>(env: &E) -> Option<u8> {
    let mut word = [0u8; 16];
    let n = env.arg(1, &mut word).unwrap_or(0);
    let (limit, _behind) = first_word(&word[..n]);
    byte(limit)
}

fn main(rt: HostRuntime) -> io::Result<()> {
    match level_limit(&rt) {
        Some(limit) => input::read_in(&mut rt.stdin(), &rt, b"", 2, limit),
        None => rt.write_all(b"limit\n"),
    }
}
