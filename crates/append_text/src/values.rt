// What a line says, as it is handed over to be tried.
ghost use Rattle.std.specs.Prelude.{◌≡◌, map, ◌≤◌, ◌<◌, min, length, take, drop};
ghost use Rattle.mesh_text.specs.Rows.{line, first as first_of, rest as rest_of};
ghost use Rattle.mesh_text.specs.Tests.{number_of, clipped};

use mesh_text::row::{first, from, over, rest, word_after};
use mesh_text::word::{number, value};

// A number as a byte: 255 where it is above that.
fn byte(n: u64) -> u8
    ensures { result ≡ min 255 n }
{
    n.min(255) as u8
}

// The id in the line at a place.
pub fn id_at(t: &[u8], at: usize) -> u32
    requires { number_of (first_of (line (drop at t.now))) < 4294967296 }
    ensures { result ≡ number_of (first_of (line (drop at t.now))) }
{
    number(first(from(t, at))) as u32
}

// The kind.
pub fn kind_at(t: &[u8], at: usize) -> u8
    ensures { result ≡ min 255 (number_of (first_of (rest_of (line (drop at t.now))))) }
{
    byte(number(first(rest(from(t, at)))))
}

// The level limit.
pub fn limit_at(t: &[u8], at: usize) -> u8
    ensures { result ≡ min 255 (number_of (first_of (rest_of (rest_of (line (drop at t.now)))))) }
{
    byte(number(first(rest(rest(from(t, at))))))
}

// The place behind the first three words of the line at a place.
fn behind_three(t: &[u8], at: usize) -> usize
    requires { at ≤ length t.now }
    ensures { (result ≤ length t.now) × (line (drop result t.now) ≡ drop 3 (line (drop at t.now))) }
{
    let a = word_after(t, at);
    let b = word_after(t, a);
    word_after(t, b)
}

// The words left in the line at a place as coordinates, as many as there is room for; answers how many.
fn coords_from(t: &[u8], at: usize, xs: &mut [i64]) -> usize
    requires { at ≤ length t.now }
    ensures within { result ≤ length xs.old }
    ensures read { take result xs.new ≡ map (clipped 4294967295) (take (length xs.old) (line (drop at t.now))) }
{
    let mut p = at;
    for i in 0..xs.len() {
        if over(from(t, p)) {
            return i;
        }
        xs[i] = value(first(from(t, p)));
        p = word_after(t, p);
    }
    xs.len()
}

// The coordinates in the line at a place.
pub fn coords_at(t: &[u8], at: usize, xs: &mut [i64]) -> usize
    requires { at ≤ length t.now }
    ensures within { result ≤ length xs.old }
    ensures read { take result xs.new ≡ map (clipped 4294967295) (take (length xs.old) (drop 3 (line (drop at t.now)))) }
{
    coords_from(t, behind_three(t, at), xs)
}
