// What good rows say: the number of a node or an element, the type of an element and its node numbers.
ghost use Rattle.std.specs.Prelude.{◌≡◌, ◌++◌, map, ◌≤◌, ◌<◌, length, take, drop, replicate, IfSome};
ghost use Rattle.mesh_text.specs.Rows.{line};
ghost use Rattle.mesh_text.specs.Tests.{number_of};
ghost use Rattle.mesh_form.specs.Values.{id_of, type_of, nine, size_of_type, size_number};

use mesh_text::row::{first, from, over, rest, word_after};
use mesh_text::word::number;

// The number in the row at a place.
pub fn number_at(t: &[u8], at: usize) -> u64
    ensures { result ≡ id_of (line (drop at t.now)) }
{
    number(first(from(t, at)))
}

// The type of the element in the row at a place.
pub fn type_at(t: &[u8], at: usize) -> u64
    ensures { result ≡ type_of (line (drop at t.now)) }
{
    number(first(rest(from(t, at))))
}

// The place behind the next n words of a line; behind its last word where there are fewer.
fn skip(t: &[u8], at: usize, n: u64) -> usize
    requires { at ≤ length t.now }
    ensures { (result ≤ length t.now) × (line (drop result t.now) ≡ drop n (line (drop at t.now))) }
{
    let mut p = at;
    for _ in 0..n {
        if over(from(t, p)) {
            return p;
        }
        p = word_after(t, p);
    }
    p
}

// The next nine numbers of a line, 2^32 for each that is missing.
// stays (1): specs/Values `nine` states it, and a word that is no number is 2^32 as well (mesh_text, number_of)
fn nine_from(t: &[u8], at: usize) -> [u64; 9]
    requires { at ≤ length t.now }
    ensures { result ≡ take 9 (map number_of (line (drop at t.now)) ++ replicate 9 4294967296) }
{
    let mut ns: [u64; 9] = [4294967296; 9];
    let mut p = at;
    for n in ns.iter_mut() {
        *n = number(first(from(t, p)));
        p = word_after(t, p);
    }
    ns
}

// The first nine node numbers of the element in the row at a place. Its tags may be said to be 2^32 - 1.
pub fn nine_at(t: &[u8], at: usize) -> [u64; 9]
    ensures { result ≡ nine (line (drop at t.now)) }
{
    let row = from(t, at);
    let tags = number(first(rest(rest(row))));
    let behind = skip(row, 0, 3);
    let names = skip(row, behind, tags);
    nine_from(row, names)
}

// How many nodes the elements of a type that is ours have.
#[tactic(auto, unfolding(crate::specs::Values::size_of_type))]
pub fn size_of(kind: u64) -> Option<usize>
    ensures size { size_number result ≡ size_of_type kind }
    ensures ours { IfSome result (λ n. 0 < n) }
{
    match kind {
        9 => Some(6),
        10 => Some(9),
        16 => Some(8),
        _ => None,
    }
}
