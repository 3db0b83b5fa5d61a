// Floats as 16 hex digits each: the bit pattern, the highest byte first.
ghost use Rattle.std.specs.Prelude.{◌<◌, ◌≡◌};
ghost use Rattle.std.specs.Float.{binary64};
ghost use Rattle.std.specs.Float.Ieee.{of_bits, to_bits};

use text::read::hex;
use text::write;

// The float of a pattern. Every pattern that is no number's is the one that is no number.
fn float(pattern: u64) -> f64
    ensures { result ≡ of_bits binary64 pattern }
{
    if 9218868437227405312 < pattern % 9223372036854775808 {
        return f64::NAN;
    }
    f64::from_bits(pattern)
}

// The pattern of a float; what is no number has one.
fn bits(x: f64) -> u64
    ensures { result ≡ to_bits binary64 x }
{
    if x.is_nan() {
        return 9221120237041090560;
    }
    x.to_bits()
}

// The float that a word is.
pub fn float_of(word: &[u8]) -> Option<f64> {
    let mut bytes = [0; 8];
    if hex(word, &mut bytes)? != 8 {
        return None;
    }
    Some(float(u64::from_be_bytes(bytes)))
}

// One float in hex.
pub fn pattern(out: &mut [u8], at: usize, x: f64) -> usize {
    write::hex(out, at, &bits(x).to_be_bytes())
}
