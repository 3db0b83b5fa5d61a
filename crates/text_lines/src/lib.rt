// The call `text`. The buffer and the text stand in the line as hex. It is asked what stands behind its name; none where that is no call.
#![tactic(auto)]

use append_text::append_text;
use pieces::{buffer, buffer_and_text, naturals};
use text::write;

// Calls `append_text`, and writes `code record line word used appended HEX` of the buffer afterwards.
fn text_answer(text: &[u8], bytes: &mut [u8], used: u64, out: &mut [u8]) -> usize {
    let told = append_text(text, bytes, used);
    let code = write::natural(out, 0, u64::from(told.code));
    let end = naturals(
        out,
        code,
        &[
            u64::from(told.number),
            told.line,
            told.word,
            told.used,
            u64::from(told.appended),
        ],
    );
    buffer(out, end, bytes)
}

// `text USED HEXBUFFER HEXTEXT`: `code record line word used appended HEX` of the buffer afterwards. The text has the room of the
// longest line that is read.
pub fn text_line(line: &[u8], out: &mut [u8]) -> Option<usize> {
    let mut bytes = [0u8; 65536];
    let mut text = [0u8; 85000];
    let h = buffer_and_text(line, &mut bytes, &mut text)?;
    Some(text_answer(&text[..h.text], &mut bytes[..h.buffer], h.used, out))
}
