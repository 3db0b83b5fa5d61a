// Reading a line whose words are parted by one space each. A line that is at its end has an empty word left.
ghost use Rattle.std.specs.Prelude.{◌≡◌, ◌≢◌, ◌+◌, ◌<◌, ◌≤◌, length, take, drop, slice_index, EachIndex, IfSome};
ghost use Rattle.text.specs.Writing.{reads, reads_integer};

// The first word of a line, and what stands behind it and one space.
pub fn first_word(line: &[u8]) -> (&[u8], &[u8])
    ensures word { result.0.now ≡ take (length result.0.now) line.now }
    ensures behind { result.1.now ≡ drop (length result.0.now + 1) line.now }
    ensures parted { EachIndex result.0.now (λ k. slice_index result.0.now k ≢ 32) }
    ensures space { length result.0.now < length line.now → slice_index line.now (length result.0.now) ≡ 32 }
{
    match line.iter().position(|b| *b == b' ') {
        Some(end) => (&line[..end], &line[end + 1..]),
        None => (line, &[]),
    }
}

// The word of a line that has no other.
pub fn only_word(line: &[u8]) -> Option<&[u8]>
    ensures { IfSome result (λ w. (w.now ≡ take (length w.now) line.now) × (length line.now ≤ length w.now + 1)) }
{
    let (word, behind) = first_word(line);
    if behind.is_empty() { Some(word) } else { None }
}

// The number that a word is, if it is all digits and has 64 bits.
pub fn natural(word: &[u8]) -> Option<u64>
    ensures { IfSome result (λ n. n ≡ reads word.now) }
{
    if word.is_empty() {
        return None;
    }
    let mut n: u64 = 0;
    for b in word {
        let digit = char::from(*b).to_digit(10)?;
        n = n.checked_mul(10)?.checked_add(u64::from(digit))?;
    }
    Some(n)
}

// The number that a word is, if it is at most this one.
pub fn up_to(word: &[u8], most: u32) -> Option<u32>
    ensures { IfSome result (λ n. (n ≡ reads word.now) × (n ≤ most)) }
{
    let n = u32::try_from(natural(word)?).ok()?;
    if n <= most { Some(n) } else { None }
}

// The number that a word is, if it has 8 bits.
pub fn byte(word: &[u8]) -> Option<u8>
    ensures { IfSome result (λ n. n ≡ reads word.now) }
{
    u8::try_from(natural(word)?).ok()
}

// The number that a word is, digits with a minus before them or none, if it has 32 bits.
pub fn signed(word: &[u8]) -> Option<i32>
    ensures { IfSome result (λ z. z ≡ reads_integer word.now) }
{
    let n = match word {
        [b'-', digits @ ..] => i64::try_from(natural(digits)?).ok()?.checked_neg()?,
        _ => i64::try_from(natural(word)?).ok()?,
    };
    i32::try_from(n).ok()
}

// Reads all words of a line, each by one function. Answers how many there are; none where one is refused or there is no room for all.
pub fn values<T: Copy, F: Fn(&[u8]) -> Option<T>>(
    line: &[u8],
    read: F,
    out: &mut [T],
) -> Option<usize>
    requires { F.IsAlwaysCallable read }
    ensures { IfSome result (λ n. n ≤ length out.old) }
{
    let mut rest = line;
    for (n, place) in out.iter_mut().enumerate() {
        if rest.is_empty() {
            return Some(n);
        }
        let (word, behind) = first_word(rest);
        *place = read(word)?;
        rest = behind;
    }
    if rest.is_empty() {
        Some(out.len())
    } else {
        None
    }
}

// Reads numbers to the end of a line.
pub fn numbers(line: &[u8], out: &mut [i32]) -> Option<usize>
    ensures { IfSome result (λ n. n ≤ length out.old) }
{
    values(line, signed, out)
}

// The value of a hex digit.
fn hex_digit(b: u8) -> Option<u8>
    ensures { IfSome result (λ n. n < 16) }
{
    Some(char::from(b).to_digit(16)? as u8)
}

// The bytes whose hex digits these are.
fn hex_bytes(digits: &[u8], out: &mut [u8]) -> Option<usize>
    ensures { IfSome result (λ n. n ≤ length out.old) }
{
    let n = digits.len() / 2;
    if digits.len() % 2 != 0 || out.len() < n {
        return None;
    }
    for k in 0..n {
        out[k] = 16 * hex_digit(digits[2 * k])? + hex_digit(digits[2 * k + 1])?;
    }
    Some(n)
}

// The bytes whose hex digits a word is; `-` stands for none. Answers how many there are; none where it is not all hex or there is no
// room for all.
pub fn hex(word: &[u8], out: &mut [u8]) -> Option<usize>
    ensures { IfSome result (λ n. n ≤ length out.old) }
{
    match word {
        [] => None,
        b"-" => Some(0),
        _ => hex_bytes(word, out),
    }
}
