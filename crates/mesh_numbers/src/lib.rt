// The node numbers of a text: whether one stands twice, and whether one that an element wants is not listed.
#![tactic(auto)]

pub mod flag;
pub mod look;
pub mod mark;

ghost use Rattle.std.specs.Prelude.{◌≡◌, true, false, ℕ, ◌≤◌, ◌<◌, length};
ghost use Rattle.mesh_numbers.specs.Bits.{zeros};
ghost use Rattle.mesh_numbers.specs.Numbers.{numbers, wanted, Repeated, Missing};
ghost use Rattle.mesh_numbers.specs.Windows.{Swept, Doubles, Lacks};

use crate::look::look;
use crate::mark::mark;

// A window of numbers that have flags: the first, and the first behind it.
#[derive(Clone, Copy)]
pub struct Window {
    pub base: u64,
    pub lim: u64,
}

// What a pass over a text has found: whether a number stands twice, or is not listed; and the least number above the window, or 2^32.
// stays (1): `found` is no flag for `above`: specs/Windows `Marks` and `Looks` take both on over the whole pass, found or not
#[derive(Clone, Copy)]
pub struct Pass {
    pub found: bool,
    pub above: u64,
}

// Whether a number stands twice in the window from base on: 2^20 bytes are flags for 2^23 numbers.
#[tactic(none)]
fn twice_from(t: &[u8], base: u64) -> Pass
    requires { base ≤ 4294967296 }
    ensures { Doubles base (zeros 1048576) (numbers t.now) result }
{
    let mut flags = [0u8; 1048576];
    mark(t, &mut flags, base)
}

// Whether a pass finds something in a window: window by window, each from the least number above the one before.
fn in_a_window<F: Fn(u64) -> Pass>(pass: F) -> bool
    requires callable { (base : ℕ) → base ≤ 4294967296 → F.pre pass base }
    requires onwards { (base : ℕ) (p : Pass) → base < 4294967296 → F.post pass base p → (base < p.above) × (p.above ≤ 4294967296) }
    ensures yes { result ≡ true → (base : ℕ) × ((p : Pass) × (F.post pass base p × (p.found ≡ true))) }
    ensures no { result ≡ false → (base : ℕ) × ((4294967296 ≤ base) × Swept (F.post pass) base) }
{
    let mut base: u64 = 0;
    while base < 4294967296 {
        let p = pass(base);
        if p.found {
            return true;
        }
        base = p.above;
    }
    false
}

// Whether a node number stands twice in a text.
pub fn twice(t: &[u8]) -> bool
    ensures { Repeated (numbers t.now) result }
{
    let pass = |base: u64| -> Pass
        requires { base ≤ 4294967296 }
        ensures { Doubles base (zeros 1048576) (numbers t.entry.now) result }
    { twice_from(t, base) };
    in_a_window(pass)
}

// Whether a number that an element wants is not listed, in the window that the flags are for.
fn marked_look(t: &[u8], flags: &mut [u8], base: u64) -> Pass
    requires base_bound { base ≤ 4294967296 }
    requires flags_len_bound { length flags.old ≤ 1048576 }
    ensures { Lacks base flags.old (numbers t.now) (wanted t.now) result }
{
    mark(t, flags, base);
    look(t, flags, base)
}

// The same in the window from base on.
#[tactic(none)]
fn unlisted_from(t: &[u8], base: u64) -> Pass
    requires { base ≤ 4294967296 }
    ensures { Lacks base (zeros 1048576) (numbers t.now) (wanted t.now) result }
{
    let mut flags = [0u8; 1048576];
    marked_look(t, &mut flags, base)
}

// Whether a node number that an element of ours wants is not listed in a text.
pub fn unlisted(t: &[u8]) -> bool
    ensures { Missing (numbers t.now) (wanted t.now) result }
{
    let pass = |base: u64| -> Pass
        requires { base ≤ 4294967296 }
        ensures { Lacks base (zeros 1048576) (numbers t.entry.now) (wanted t.entry.now) result }
    { unlisted_from(t, base) };
    in_a_window(pass)
}
