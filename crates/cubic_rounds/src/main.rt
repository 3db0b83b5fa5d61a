// Judges each ten-node triangle on standard input 64 times, and prints the most cells of any: the judge without text, for ./bench. The
// input has up to 800 records, as the crate ten_records reads them.
#![tactic(auto)]

use endian::get_u32;
use std::io;
use streams::input::filled;
use streams::turns::turns;
use ten_records::{coords, count};

// The cells of record k; 0 where there is none.
fn cells(bytes: &[u8], k: u32) -> u32 {
    let n = k as usize;
    let at = 84 * n;
    if bytes.len() < at + 84 {
        return 0;
    }
    let word = get_u32(bytes, at);
    let limit = (word % 256) as u8;
    let xs = coords(bytes, at);
    let v = verdict::verdict(10, limit, &xs);
    v.cells
}

fn main(rt: HostRuntime) -> io::Result<()> {
    let mut bytes = [0u8; 67200];
    let n = filled(&mut rt.stdin(), &mut bytes);
    let records = &bytes[..n];
    let most = turns(count(records), |most, k| most.max(cells(records, k)));
    println!(rt; "{most}")
}
