// Numbers in a slice of bytes, little-endian, signed ones in two's complement.
#![tactic(auto)]

ghost use Rattle.std.specs.Prelude.{◌≡◌, ◌+◌, ◌≤◌, length};
ghost use Rattle.endian.specs.Numbers.{bytes, number, signed_bytes, signed_number, part, over};

// The number in the two bytes at a place.
pub fn get_u16(s: &[u8], at: usize) -> u32
    requires { at + 2 ≤ length s.now }
    ensures { result ≡ number (part at 2 s.now) }
{
    u32::from(u16::from_le_bytes([s[at], s[at + 1]]))
}

// The number in the four bytes at a place.
pub fn get_u32(s: &[u8], at: usize) -> u32
    requires { at + 4 ≤ length s.now }
    ensures { result ≡ number (part at 4 s.now) }
{
    u32::from_le_bytes([s[at], s[at + 1], s[at + 2], s[at + 3]])
}

// The signed number in the four bytes at a place.
pub fn get_i32(s: &[u8], at: usize) -> i32
    requires { at + 4 ≤ length s.now }
    ensures { result ≡ signed_number (part at 4 s.now) }
{
    get_u32(s, at).cast_signed()
}

// A number, written in the four bytes at a place.
pub fn put_u32(s: &mut [u8], at: usize, x: u32)
    requires { at + 4 ≤ length s.old }
    ensures { s.new ≡ over s.old at (bytes 4 x) }
{
    s[at..at + 4].copy_from_slice(&x.to_le_bytes());
}

// A signed number, written in the four bytes at a place.
pub fn put_i32(s: &mut [u8], at: usize, x: i32)
    requires { at + 4 ≤ length s.old }
    ensures { s.new ≡ over s.old at (signed_bytes 4 x) }
{
    put_u32(s, at, x.cast_unsigned());
}
