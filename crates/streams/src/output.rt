// What a call on a block answered, on standard output.
use pieces::naturals;
use std::io;
use std::io::Print;
use text::write;

// The line of a code and the numbers behind it.
fn told_line(out: &mut [u8], code: u8, others: &[u64]) -> usize {
    let first = write::natural(out, 0, code as u64);
    let last = naturals(out, first, others);
    write::put(out, last, b'\n')
}

// Writes the line, and behind it, where the code is 0, the bytes of a block that are used.
pub fn tell<P: Print>(to: &P, code: u8, others: &[u64], block: &[u8], used: u64) -> io::Result<()> {
    let mut line = [0u8; 128];
    let end = told_line(&mut line, code, others);
    if end <= 128 {
        to.write_all(&line[..end])?;
    }
    if code != 0 {
        return Ok(());
    }
    if used <= block.len() as u64 {
        let n = used as usize;
        to.write_all(&block[..n])?;
    }
    Ok(())
}
