// Records of ten-node triangles, as benchmark/records makes them: 84 bytes each, the level limit in 32 bits, and 20 coordinates. No block
// holds them; the programs that ./bench times read them.
#![tactic(auto)]

ghost use Rattle.std.specs.Prelude.{◌≡◌, ◌+◌, ◌≤◌, length};
ghost use Rattle.ten_records.specs.Records.{read_count, read_coords};

use endian::get_i32;

// How many whole records there are, 800 at most.
pub fn count(bytes: &[u8]) -> u32
    ensures { result ≡ read_count bytes.now }
{
    (bytes.len() / 84).min(800) as u32
}

// The coordinates of the record at a place.
pub fn coords(bytes: &[u8], at: usize) -> [i32; 20]
    requires { at + 84 ≤ length bytes.now }
    ensures { result ≡ read_coords bytes.now at }
{
    let mut out = [0i32; 20];
    for k in 0..20 {
        out[k] = get_i32(bytes, at + 4 + 4 * k);
    }
    out
}
