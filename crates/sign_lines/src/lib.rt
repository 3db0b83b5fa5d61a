// The calls `sign` and `convert`. A block stands in the line as hex. Each is asked what stands behind its name; none where that is no call.
#![tactic(auto)]

use pieces::{block_and_record, buffer, last_word, naturals};
use signing::{Changed, sign_record, to_version_1, to_version_2};
use text::read::{first_word, natural};
use text::write;

// `code record HEX` of the block afterwards.
fn changed(bytes: &[u8], told: Changed, out: &mut [u8]) -> usize {
    let code = write::natural(out, 0, u64::from(told.code));
    let end = naturals(out, code, &[u64::from(told.number)]);
    buffer(out, end, bytes)
}

// Calls `sign_record`, and writes its answer.
fn sign_answer(bytes: &mut [u8], k: u32, out: &mut [u8]) -> usize {
    let told = sign_record(bytes, k);
    changed(bytes, told, out)
}

// `sign HEX k`: `code record HEX` of the block afterwards.
pub fn sign_line(line: &[u8], out: &mut [u8]) -> Option<usize> {
    let mut bytes = [0u8; 65536];
    let asked = block_and_record(line, &mut bytes)?;
    Some(sign_answer(&mut bytes[..asked.size], asked.k, out))
}

// Calls `to_version_1` or `to_version_2`, and writes the answer.
fn convert_answer(bytes: &mut [u8], version: u64, out: &mut [u8]) -> Option<usize> {
    let told = match version {
        1 => to_version_1(bytes),
        2 => to_version_2(bytes),
        _ => return None,
    };
    Some(changed(bytes, told, out))
}

// `convert VERSION HEX`: `code record HEX` of the block afterwards.
pub fn convert_line(line: &[u8], out: &mut [u8]) -> Option<usize> {
    let (version, block) = first_word(line);
    let mut bytes = [0u8; 65536];
    let n = last_word(block, &mut bytes)?;
    convert_answer(&mut bytes[..n], natural(version)?, out)
}
