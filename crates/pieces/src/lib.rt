// What several answers are made of. What is asked stands in the words of a line behind the name of the call; it is none where a word is
// not as it has to be, where one is missing, or where more follow.
#![tactic(auto)]

ghost use Rattle.std.specs.Prelude.{◌≡◌, ◌≤◌, length, IfSome};

use text::read::{byte, first_word, hex, natural, numbers, only_word, up_to};
use text::write;

// The bytes of the only word of a line, in hex. Answers how many.
pub fn last_word(line: &[u8], bytes: &mut [u8]) -> Option<usize>
    ensures { IfSome result (λ n. n ≤ length bytes.old) }
{
    hex(only_word(line)?, bytes)
}

// What a call on a buffer and a text is asked: the bytes of the buffer that are used, and how many bytes the buffer and the text have.
#[derive(Clone, Copy)]
pub struct Handed {
    pub used: u64,
    pub buffer: usize,
    pub text: usize,
}

// Reads `USED HEXBUFFER HEXTEXT`.
pub fn buffer_and_text(line: &[u8], buffer: &mut [u8], text: &mut [u8]) -> Option<Handed>
    ensures buffered { IfSome result (λ h. h.buffer ≤ length buffer.old) }
    ensures written { IfSome result (λ h. h.text ≤ length text.old) }
{
    let (used, behind) = first_word(line);
    let (bytes, last) = first_word(behind);
    Some(Handed {
        used: natural(used)?,
        buffer: hex(bytes, buffer)?,
        text: last_word(last, text)?,
    })
}

// What a call on a record of a block is asked: how many bytes the block has, and the number of the record, of 32 bits.
#[derive(Clone, Copy)]
pub struct Named {
    pub size: usize,
    pub k: u32,
}

// Reads `HEX k`.
pub fn block_and_record(line: &[u8], bytes: &mut [u8]) -> Option<Named>
    ensures { IfSome result (λ n. n.size ≤ length bytes.old) }
{
    let (block, last) = first_word(line);
    Some(Named {
        size: hex(block, bytes)?,
        k: up_to(only_word(last)?, u32::MAX)?,
    })
}

// What a call on an element is asked: the kind, the level limit, and how many coordinates there are.
#[derive(Clone, Copy)]
pub struct Drawn {
    pub kind: u8,
    pub limit: u8,
    pub count: usize,
}

// Reads `KIND LIMIT x y ..`.
pub fn element(line: &[u8], coords: &mut [i32]) -> Option<Drawn>
    ensures { IfSome result (λ d. d.count ≤ length coords.old) }
{
    let (kind, behind) = first_word(line);
    let (limit, rest) = first_word(behind);
    Some(Drawn {
        kind: byte(kind)?,
        limit: byte(limit)?,
        count: numbers(rest, coords)?,
    })
}

// What a call that fills a buffer is asked first: how many places the buffer has, up to 64, and the kind; and the line behind these.
#[derive(Clone, Copy)]
pub struct Roomed<'a> {
    pub room: usize,
    pub kind: u8,
    pub rest: &'a [u8],
}

// Reads `ROOM KIND`.
pub fn room_and_kind(line: &[u8]) -> Option<Roomed<'_>>
    ensures { IfSome result (λ r. r.room ≤ 64) }
{
    let (room, behind) = first_word(line);
    let (kind, rest) = first_word(behind);
    Some(Roomed {
        room: up_to(room, 64)? as usize,
        kind: byte(kind)?,
        rest,
    })
}

// Values, each with a space before it and written by one function; nothing for none.
pub fn spaced<T: Copy, F: Fn(&mut [u8], usize, T) -> usize>(
    out: &mut [u8],
    from: usize,
    values: &[T],
    write_one: F,
) -> usize
    requires { F.IsAlwaysCallable write_one }
    ensures { length values.now ≡ 0 → result ≡ from }
{
    let mut at = from;
    for x in values {
        at = write::put(out, at, b' ');
        at = write_one(out, at, *x);
    }
    at
}

// Numbers.
pub fn integers(out: &mut [u8], from: usize, values: &[i64]) -> usize {
    spaced(out, from, values, write::integer)
}

// Numbers that are not below zero.
pub fn naturals(out: &mut [u8], from: usize, values: &[u64]) -> usize {
    spaced(out, from, values, write::natural)
}

// Coordinates.
pub fn coordinates(out: &mut [u8], from: usize, values: &[i32]) -> usize {
    spaced(
        out,
        from,
        values,
        |out, at, x| write::integer(out, at, i64::from(x)),
    )
}

// The bytes of a buffer as the last word of an answer.
pub fn buffer(out: &mut [u8], at: usize, bytes: &[u8]) -> usize {
    let space = write::put(out, at, b' ');
    let end = write::hex(out, space, bytes);
    write::put(out, end, b'\n')
}
