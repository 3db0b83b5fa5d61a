// Judges each element of the block on standard input 64 times, and prints the most cells of any: the judge without text, for ./bench.
#![tactic(auto)]

use block::{check_block, record_at};
use signs::judge;
use std::io;
use streams::input::filled;
use streams::turns::turns;

// The cells of record k.
fn cells(bytes: &[u8], k: u32) -> u32 {
    let r = record_at(bytes, k);
    let v = judge(r.kind, r.limit, &r.coords);
    v.cells
}

fn main(rt: HostRuntime) -> io::Result<()> {
    let mut bytes = [0u8; 65536];
    let n = filled(&mut rt.stdin(), &mut bytes);
    let block = &bytes[..n];
    let most = turns(
        check_block(block).count,
        |most, k| most.max(cells(block, k)),
    );
    println!(rt; "{most}")
}
