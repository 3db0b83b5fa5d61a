// The call `mesh`. The buffer and the text stand in the line as hex. It is asked what stands behind its name; none where that is no call.
#![tactic(auto)]

use mesh::append_mesh;
use pieces::{buffer, buffer_and_text, naturals};
use text::read::{byte, first_word};
use text::write;

// Calls `append_mesh`, and writes `code record used appended passed HEX` of the buffer afterwards.
fn mesh_answer(text: &[u8], limit: u8, bytes: &mut [u8], used: u64, out: &mut [u8]) -> usize {
    let told = append_mesh(text, limit, bytes, used);
    let code = write::natural(out, 0, u64::from(told.code));
    let end = naturals(
        out,
        code,
        &[
            u64::from(told.number),
            told.used,
            u64::from(told.appended),
            told.passed,
        ],
    );
    buffer(out, end, bytes)
}

// `mesh LIMIT USED HEXBUFFER HEXTEXT`: `code record used appended passed HEX` of the buffer afterwards. The text has the room of the
// longest line that is read.
pub fn mesh_line(line: &[u8], out: &mut [u8]) -> Option<usize> {
    let (limit, rest) = first_word(line);
    let mut bytes = [0u8; 65536];
    let mut text = [0u8; 85000];
    let h = buffer_and_text(rest, &mut bytes, &mut text)?;
    Some(mesh_answer(
        &text[..h.text],
        byte(limit)?,
        &mut bytes[..h.buffer],
        h.used,
        out,
    ))
}
