// The call `list`. The block stands in the line as hex. It is asked what stands behind its name; none where that is no call.
#![tactic(auto)]

use list::write_list;
use pieces::last_word;
use text::write;

// The lines of a list as one line, with ` / ` between them.
fn joined(list: &[u8], out: &mut [u8]) -> usize {
    let mut end = 0;
    for (k, b) in list.iter().enumerate() {
        if *b != b'\n' {
            end = write::put(out, end, *b);
        } else if k + 1 < list.len() {
            end = write::word(out, end, b" / ");
        }
    }
    write::put(out, end, b'\n')
}

// Calls `write_list`, and writes the list. A block's list is never longer than the room here.
fn list_answer(bytes: &[u8], out: &mut [u8]) -> usize {
    let mut list = [0u8; 71680];
    let told = write_list(bytes, &mut list);
    joined(&list[..told.length], out)
}

// `list HEX`: the lines of the list, joined by ` / `. The bytes have the room of the longest line that is read: a block may be too long.
pub fn list_line(line: &[u8], out: &mut [u8]) -> Option<usize> {
    let mut bytes = [0u8; 85000];
    let n = last_word(line, &mut bytes)?;
    Some(list_answer(&bytes[..n], out))
}
