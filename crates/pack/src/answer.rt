// The answer to a text.
use append::start_block;
use append_text::append_text;
use std::io;
use std::io::Print;
use streams::output::tell;

// Appends the records of a text to an empty block, and tells `code record line word used appended`.
fn append_all<P: Print>(to: &P, text: &[u8], block: &mut [u8]) -> io::Result<()> {
    let started = start_block(block);
    let told = append_text(text, block, started.used);
    tell(
        to,
        told.code,
        &[
            told.number as u64,
            told.line,
            told.word,
            told.used,
            told.appended as u64,
        ],
        block,
        told.used,
    )
}

// The same in a block of its own, with room for 800 records.
pub fn answer<P: Print>(to: &P, text: &[u8]) -> io::Result<()> {
    let mut block = [0u8; 64009];
    append_all(to, text, &mut block)
}
