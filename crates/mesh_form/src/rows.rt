// Tests of single rows. A row is given as the text from its place on.
ghost use Rattle.std.specs.Prelude.{◌≡◌, take};
ghost use Rattle.mesh_text.specs.Rows.{line};
ghost use Rattle.mesh_form.specs.Walk.{positive_b, version_b, format_b, node_b, count_b, word_b, left_b, element_b, end_b, mark_b};

use crate::values::size_of;
use mesh_text::row::{first, from, over, rest, word_after};
use mesh_text::word::{is_number, is_tag, number, same};
use mesh_text::{Class, run};

// The first n bytes of a word.
fn upto(w: &[u8], n: usize) -> &[u8]
    ensures { result.now ≡ take n w.now }
{
    &w[..n.min(w.len())]
}

// Whether this is a number above 0.
#[tactic(auto, unfolding(crate::specs::Walk::positive_b))]
fn positive(n: u64) -> bool
    ensures { result ≡ positive_b n }
{
    (0 < n) & (n < 4294967296)
}

// Whether a word is 2.2 with zeros behind it, or none.
#[tactic(auto, unfolding(crate::specs::Walk::version_b))]
fn is_version(w: &[u8]) -> bool
    ensures { result ≡ version_b w.now }
{
    let two = same(upto(w, 3), b"2.2");
    let z = from(w, 3);
    let n = run(z, Class::Zero);
    two & (n == z.len())
}

// Whether a row is that of a format.
#[tactic(auto, unfolding(crate::specs::Walk::format_b))]
pub fn is_format(t: &[u8]) -> bool
    ensures { result ≡ format_b (line t.now) }
{
    let t1 = rest(t);
    let t2 = rest(t1);
    let v = is_version(first(t));
    let a = number(first(t1));
    let b = number(first(t2));
    let end = over(rest(t2));
    v & ((a == 0) & ((b == 8) & end))
}

// Whether a row is that of a node.
#[tactic(auto, unfolding(crate::specs::Walk::node_b))]
pub fn is_node(t: &[u8]) -> bool
    ensures { result ≡ node_b (line t.now) }
{
    let t1 = rest(t);
    let t2 = rest(t1);
    let t3 = rest(t2);
    let n = positive(number(first(t)));
    let x = is_number(first(t1));
    let y = is_number(first(t2));
    let z = is_number(first(t3));
    let end = over(rest(t3));
    n & (x & (y & (z & end)))
}

// Whether the row has the one word $End and a name.
#[tactic(auto, unfolding(crate::specs::Walk::end_b))]
pub fn is_end(t: &[u8], name: &[u8]) -> bool
    ensures { result ≡ end_b name.now (line t.now) }
{
    let alone = over(rest(t));
    let w = first(t);
    let e = same(upto(w, 4), b"$End");
    let n = same(from(w, 4), name);
    alone & (e & n)
}

// Whether the row has one word, and that starts with $.
#[tactic(auto, unfolding(crate::specs::Walk::mark_b))]
pub fn is_mark(t: &[u8]) -> bool
    ensures { result ≡ mark_b (line t.now) }
{
    let alone = over(rest(t));
    let d = same(upto(first(t), 1), b"$");
    alone & d
}

// Whether a type has so many node numbers.
#[tactic(auto, unfolding(crate::specs::Walk::count_b, crate::specs::Values::size_of_type))]
fn is_count(kind: u64, n: usize) -> bool
    ensures { result ≡ count_b kind n }
{
    match size_of(kind) {
        Some(size) => n == size,
        None => 0 < n,
    }
}

// Whether a word is good where so many tags are left: a tag, or a node number.
#[tactic(auto, unfolding(crate::specs::Walk::word_b))]
fn is_good(w: &[u8], left: u64) -> bool
    ensures { result ≡ word_b left w.now }
{
    if left == 0 {
        return positive(number(w));
    }
    is_tag(w)
}

// Whether the words are tags and then node numbers, as many as the type has.
fn is_left(t: &[u8], tags: u64, kind: u64) -> bool
    ensures { result ≡ left_b tags 0 kind (line t.now) }
{
    let mut at: usize = 0;
    let mut left = tags;
    let mut n: usize = 0;
    while at < t.len() {
        let r = from(t, at);
        if over(r) {
            let enough = is_count(kind, n);
            return (left == 0) & enough;
        }
        if !is_good(first(r), left) {
            return false;
        }
        n += usize::from(left == 0);
        left = left.saturating_sub(1);
        at = word_after(t, at);
    }
    let enough = is_count(kind, n);
    (left == 0) & enough
}

// Whether a row is that of an element.
#[tactic(auto, unfolding(crate::specs::Walk::element_b))]
pub fn is_element(t: &[u8]) -> bool
    ensures { result ≡ element_b (line t.now) }
{
    let t1 = rest(t);
    let t2 = rest(t1);
    let n = positive(number(first(t)));
    let kind = number(first(t1));
    let k = positive(kind);
    let tags = number(first(t2));
    let words = is_left(rest(t2), tags, kind);
    n & (k & ((tags < 4294967296) & words))
}
