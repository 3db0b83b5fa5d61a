// Forms the control values of each ten-node triangle on standard input 64 times, and prints how often none of the fifteen was negative: the
// values without the walk, for ./bench. The input has up to 800 records, as the crate ten_records reads them.
#![tactic(auto)]

use cells::none_negative;
use control::control_values;
use std::io;
use streams::input::filled;
use streams::turns::turns;
use ten_records::{coords, count};

// 1 where no value of record k is negative, else 0.
fn clear(bytes: &[u8], k: u32) -> u32 {
    let n = k as usize;
    let at = 84 * n;
    if bytes.len() < at + 84 {
        return 0;
    }
    let xs = coords(bytes, at);
    let mut values = [0i64; 15];
    control_values(10, &xs, &mut values);
    u32::from(none_negative(&values))
}

fn main(rt: HostRuntime) -> io::Result<()> {
    let mut bytes = [0u8; 67200];
    let n = filled(&mut rt.stdin(), &mut bytes);
    let records = &bytes[..n];
    let sum = turns(count(records), |sum, k| sum.wrapping_add(clear(records, k)));
    println!(rt; "{sum}")
}
