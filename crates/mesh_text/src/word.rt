// What a word stands for.
ghost use Rattle.std.specs.Prelude.{◌≡◌, ◌-◌, ◌≤◌, ◌<◌, min, drop};
ghost use Rattle.text.specs.Writing.{reads};
ghost use Rattle.mesh_text.specs.Tests.{digits_b, unsigned, is_minus, tag_b, exponent_b, mantissa_b, number_b, point_b, whole_b, number_of, size_of, clipped, zero_b, same_b};

use crate::{Class, front, past, run};

// Whether two words are the same.
pub fn same(v: &[u8], w: &[u8]) -> bool
    ensures { result ≡ same_b v.now w.now }
{
    v == w
}

// A word without its first byte.
pub fn tail(w: &[u8]) -> &[u8]
    ensures { result.now ≡ drop 1 w.now }
{
    match w.split_first() {
        Some((_, behind)) => behind,
        None => w,
    }
}

// The value of a digit.
fn digit(b: u8) -> u64
    ensures { (result ≡ b - 48) × (result < 256) }
{
    u64::from(b.saturating_sub(48))
}

// The number that digits stand for, `most` where it is above that. Looks at every byte.
fn reads_to(w: &[u8], most: u64) -> u64
    requires { most ≤ 1099511627776 }
    ensures { result ≡ min most (reads w.now) }
{
    let mut v: u64 = 0;
    for b in w {
        v = most.min(10 * v + digit(*b));
    }
    v
}

// Whether a word is digits.
#[tactic(auto, unfolding(crate::specs::Tests::digits_b))]
pub fn is_digits(w: &[u8]) -> bool
    ensures { result ≡ digits_b w.now }
{
    let n = run(w, Class::Digit);
    (0 < w.len()) & (n == w.len())
}

// A whole number; 2^32 where it is none.
// stays (1): `number_of` gives 2^32 to a word that is no number and to a number that is larger, and docs/GMSH.md's rules and the theorems read both so
#[tactic(auto, unfolding(crate::specs::Tests::number_of))]
pub fn number(w: &[u8]) -> u64
    ensures { result ≡ number_of w.now }
{
    if !is_digits(w) {
        return 4294967296;
    }
    reads_to(w, 4294967296)
}

// A word without its sign.
#[tactic(auto, unfolding(crate::specs::Tests::unsigned))]
fn unsign(w: &[u8]) -> &[u8]
    ensures { result.now ≡ unsigned w.now }
{
    let Some((b, behind)) = w.split_first() else {
        return w;
    };
    if (*b == 43) | (*b == 45) {
        return behind;
    }
    w
}

// Whether a word is a sign, or none, and digits.
#[tactic(auto, unfolding(crate::specs::Tests::tag_b))]
pub fn is_tag(w: &[u8]) -> bool
    ensures { result ≡ tag_b w.now }
{
    is_digits(unsign(w))
}

// Whether what is behind a number's digits and point is nothing or an exponent.
#[tactic(auto, unfolding(crate::specs::Tests::exponent_b))]
fn is_exponent(w: &[u8]) -> bool
    ensures { result ≡ exponent_b w.now }
{
    let Some((e, behind)) = w.split_first() else {
        return true;
    };
    let t = is_tag(behind);
    ((*e == 101) | (*e == 69)) & t
}

// The same for what is behind a number's first d digits.
#[tactic(auto, unfolding(crate::specs::Tests::mantissa_b))]
fn is_mantissa(d: usize, r: &[u8]) -> bool
    ensures { result ≡ mantissa_b d r.now }
{
    let Some((b, f)) = r.split_first() else {
        return 0 < d;
    };
    if *b != 46 {
        let x = is_exponent(r);
        return (0 < d) & x;
    }
    let n = run(f, Class::Digit);
    let x = is_exponent(past(f, Class::Digit));
    ((0 < d) | (0 < n)) & x
}

// Whether a word is a decimal number.
#[tactic(auto, unfolding(crate::specs::Tests::number_b))]
pub fn is_number(w: &[u8]) -> bool
    ensures { result ≡ number_b w.now }
{
    let u = unsign(w);
    let d = run(u, Class::Digit);
    is_mantissa(d, past(u, Class::Digit))
}

// Whether what is behind digits is nothing, or a point and zeros.
#[tactic(auto, unfolding(crate::specs::Tests::point_b))]
fn is_point(p: &[u8]) -> bool
    ensures { result ≡ point_b p.now }
{
    let Some((b, z)) = p.split_first() else {
        return true;
    };
    let n = run(z, Class::Zero);
    (*b == 46) & ((0 < z.len()) & (n == z.len()))
}

// Whether a word is a whole coordinate.
#[tactic(auto, unfolding(crate::specs::Tests::whole_b))]
pub fn is_whole(w: &[u8]) -> bool
    ensures { result ≡ whole_b w.now }
{
    let u = unsign(w);
    let d = run(u, Class::Digit);
    let p = is_point(past(u, Class::Digit));
    (0 < d) & p
}

// The first digits of a word behind its sign as a number, 2^32 - 1 where it is above that.
#[tactic(auto, unfolding(crate::specs::Tests::size_of))]
fn size(w: &[u8]) -> u64
    ensures { result ≡ min 4294967295 (size_of w.now) }
{
    reads_to(front(unsign(w), Class::Digit), 4294967295)
}

// Whether a word starts with a minus.
fn is_minus(w: &[u8]) -> bool
    ensures { result ≡ is_minus w.now }
{
    w.starts_with(b"-")
}

// The whole number that a whole coordinate is, up to 2^32 - 1 in size and that where it is larger: every i32 as it is, and none else as one.
pub fn value(w: &[u8]) -> i64
    ensures { result ≡ clipped 4294967295 w.now }
{
    let n = size(w) as i64;
    if is_minus(w) {
        return 0 - n;
    }
    n
}

// Whether a word is a whole coordinate, and 0.
pub fn is_zero(w: &[u8]) -> bool
    ensures { result ≡ zero_b w.now }
{
    let whole = is_whole(w);
    let n = size(w);
    whole & (n == 0)
}
