// The flags of a window of numbers, eight to a byte.
ghost use Rattle.std.specs.Prelude.{◌≡◌, cond, ◌<◌, ◌^◌, min, ltb};
ghost use Rattle.mesh_numbers.specs.Bits.{bit_b, set_bit, width};
ghost use Rattle.mesh_numbers.specs.Windows.{marked_b, marks, lack_b};

// The value of a bit of a byte.
fn power(i: usize) -> u8
    requires { i < 8 }
    ensures { result ≡ 2 ^ i }
{
    1u8 << i
}

// Whether the flag k is set.
fn is_set(flags: &[u8], k: usize) -> bool
    requires { k < width flags.now }
    ensures { result ≡ bit_b flags.now k }
{
    let i = k / 8;
    let p = power(k % 8);
    flags[i] / p % 2 == 1
}

// Sets the flag k; whether it was set.
fn set(flags: &mut [u8], k: usize) -> bool
    requires { k < width flags.old }
    ensures { (result ≡ bit_b flags.old k) × (flags.new ≡ set_bit flags.old k) }
{
    let i = k / 8;
    let p = power(k % 8);
    let b = flags[i];
    if b / p % 2 == 1 {
        return true;
    }
    flags[i] = b + p;
    false
}

// Marks a number, if it is in the window from base on; whether it was marked.
pub fn mark_one(flags: &mut [u8], base: u64, n: u64) -> bool
    ensures { (result ≡ marked_b base flags.old n) × (flags.new ≡ marks base flags.old n) }
{
    if n < base {
        return false;
    }
    let k = (n - base) as usize;
    if flags.len() <= k / 8 {
        return false;
    }
    set(flags, k)
}

// Whether a number is in the window from base on and not marked.
pub fn lacks(flags: &[u8], base: u64, n: u64) -> bool
    ensures { result ≡ lack_b base flags.now n }
{
    if n < base {
        return false;
    }
    let k = (n - base) as usize;
    if flags.len() <= k / 8 {
        return false;
    }
    !is_set(flags, k)
}

// The lesser of a number above the window and the one so far.
pub fn lesser(n: u64, lim: u64, above: u64) -> u64
    ensures { result ≡ cond (ltb n lim) above (min above n) }
{
    if n < lim {
        return above;
    }
    above.min(n)
}
