// The answer to a text.
use append::start_block;
use mesh::append_mesh;
use std::io;
use std::io::Print;
use streams::output::tell;

// Appends the elements of a text to an empty block, and tells `code record used appended passed`.
fn append_all<P: Print>(to: &P, text: &[u8], limit: u8, block: &mut [u8]) -> io::Result<()> {
    let started = start_block(block);
    let told = append_mesh(text, limit, block, started.used);
    tell(
        to,
        told.code,
        &[
            told.number as u64,
            told.used,
            told.appended as u64,
            told.passed,
        ],
        block,
        told.used,
    )
}

// The same in a block of its own, with room for 800 records.
pub fn answer<P: Print>(to: &P, text: &[u8], limit: u8) -> io::Result<()> {
    let mut block = [0u8; 64009];
    append_all(to, text, limit, &mut block)
}
