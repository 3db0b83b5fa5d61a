// Which call a line is.
use append_lines::append_line;
use block_lines::{Call, block_line, fetch_line};
use element_lines::{bounds_line, control_line, floor_line, verdict_line};
use list_lines::list_line;
use mend_lines::{mend_line, straighten_line};
use mesh_lines::mesh_line;
use sheet_lines::{checksheet_line, sheet_line};
use sign_lines::{convert_line, sign_line};
use solver_lines::{scale_line, unscale_line};
use text::read::first_word;
use text::write;
use text_lines::text_line;

// The call that the first word of a line names, of what stands behind it.
fn call(line: &[u8], out: &mut [u8]) -> Option<usize> {
    let (name, asked) = first_word(line);
    match name {
        b"control" => control_line(asked, out),
        b"bounds" => bounds_line(asked, out),
        b"verdict" => verdict_line(asked, out),
        b"floor" => floor_line(asked, out),
        b"sheet" => sheet_line(asked, out),
        b"checksheet" => checksheet_line(asked, out),
        b"straighten" => straighten_line(asked, out),
        b"scale" => scale_line(asked, out),
        b"unscale" => unscale_line(asked, out),
        b"check" => block_line(Call::Check, asked, out),
        b"walk" => block_line(Call::Walk, asked, out),
        b"start" => block_line(Call::Start, asked, out),
        b"fetch" => fetch_line(asked, out),
        b"append" => append_line(asked, out),
        b"mesh" => mesh_line(asked, out),
        b"text" => text_line(asked, out),
        b"sign" => sign_line(asked, out),
        b"convert" => convert_line(asked, out),
        b"mend" => mend_line(asked, out),
        b"list" => list_line(asked, out),
        _ => None,
    }
}

// The answer to a line, with its end of line; `?` to a line that is no call.
pub fn answer(line: &[u8], out: &mut [u8]) -> usize {
    match call(line, out) {
        Some(end) => end,
        None => write::word(out, 0, b"?\n"),
    }
}
