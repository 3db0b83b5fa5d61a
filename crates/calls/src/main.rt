// One call a line of text in, one answer a line out.
#![tactic(auto)]

mod answers;
mod input;

use std::io;

fn main(rt: HostRuntime) -> io::Result<()> {
    // a line has at most 170,000 characters; the longest answer is that of `walk`: 800 records of at most 242 characters
    let mut line = [0u8; 170001];
    let mut out = [0u8; 200001];
    input::run(&mut rt.stdin(), &rt, &mut line, &mut out)
}
