// Writing text into a lent buffer. Each function takes every place and every buffer: where there is room it writes the whole text, and
// answers the place after it.
ghost use Rattle.std.specs.Prelude.{[], ◌∷◌};
ghost use Rattle.text.specs.Writing.{Wrote, decimal, integer as spelled};

// One byte.
pub fn put(out: &mut [u8], at: usize, b: u8) -> usize
    ensures { Wrote out.old at (b ∷ []) out.new result }
{
    if at < out.len() {
        out[at] = b;
        return at + 1;
    }
    at
}

// A text: where there is room for all of it, it is copied, without a test for each byte.
pub fn word(out: &mut [u8], from: usize, text: &[u8]) -> usize
    ensures { Wrote out.old from text.now out.new result }
{
    let n = text.len();
    if out.len() < n || out.len() - n < from {
        return from;
    }
    out[from..from + n].copy_from_slice(text);
    from + n
}

// A number in decimal, digit by digit.
fn digits(out: &mut [u8], at: usize, n: u64) -> usize
    ensures { Wrote out.old at (decimal n) out.new result }
{
    if n < 10 {
        return put(out, at, b'0' + n as u8);
    }
    let end = digits(out, at, n / 10);
    put(out, end, b'0' + (n % 10) as u8)
}

// A number in decimal: one digit, as most numbers have, without a call.
pub fn natural(out: &mut [u8], at: usize, n: u64) -> usize
    ensures { Wrote out.old at (decimal n) out.new result }
{
    if n < 10 {
        return put(out, at, b'0' + n as u8);
    }
    digits(out, at, n)
}

// A whole number in decimal, with a minus where it is below zero.
pub fn integer(out: &mut [u8], at: usize, z: i64) -> usize
    ensures { Wrote out.old at (spelled z) out.new result }
{
    if z < 0 {
        let end = put(out, at, b'-');
        return natural(out, end, z.unsigned_abs());
    }
    natural(out, at, z.unsigned_abs())
}

// The hex digit of the lower half of a byte.
fn hex_digit(b: u8) -> u8 {
    b"0123456789abcdef"[(b % 16) as usize]
}

// Bytes in hex, two digits each; `-` for none.
pub fn hex(out: &mut [u8], from: usize, bytes: &[u8]) -> usize {
    if bytes.is_empty() {
        return put(out, from, b'-');
    }
    let mut at = from;
    for b in bytes {
        at = put(out, at, hex_digit(*b / 16));
        at = put(out, at, hex_digit(*b));
    }
    at
}
