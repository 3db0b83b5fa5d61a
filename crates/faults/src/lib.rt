// The faults of an element that the calls test: its kind (1), its level limit (2), the length of its coordinate list (3), its limit (4),
// corners at one place (21).
#![tactic(auto)]

ghost use Rattle.std.specs.Prelude.{◌≡◌, IfOk, true, false, [], ◌∷◌, ◌+◌, ◌*◌, ◌<◌, length};
ghost use Rattle.element.specs.Kinds.{NotStored, kind_of, greatest_level};
ghost use Rattle.element.specs.Corners.{SamePlace, SameTwo};
ghost use Rattle.element.specs.Refusals.{
  no_more,
  Coded,
  node_codes,
  element_codes,
  level_codes,
  bounds_codes,
  verdict_codes,
  stored_codes,
  six_codes,
};
ghost use Rattle.faults.specs.Kinds.{nodes_of, meant};
ghost use Rattle.faults.specs.Nodes.{corner_codes};
ghost use Rattle.faults.specs.Refusal.{code_of};

pub mod kind;
pub mod refusal;

use crate::kind::Kind;
use crate::refusal::Refusal;
use points::ranged;

// Whether a block holds elements of that many nodes.
pub fn stored(kind: u8) -> bool
    ensures yes { result ≡ true → ¬ NotStored kind }
    ensures no { result ≡ false → NotStored kind }
{
    matches!(kind, 6 | 8 | 9)
}

// The greatest level of the kind of that many nodes.
pub fn greatest_level(kind: u8) -> u8
    ensures { result ≡ greatest_level (kind_of kind) }
{
    match Kind::try_from(kind) {
        Ok(k) => k.greatest_level(),
        Err(_) => 4,
    }
}

// Whether the nodes a and b stand at one place.
fn same_place(coords: &[i32], a: usize, b: usize) -> bool
    requires { (2 * a + 1 < length coords.now) × (2 * b + 1 < length coords.now) }
    ensures yes { result ≡ true → SamePlace coords.now a b }
    ensures no { result ≡ false → ¬ SamePlace coords.now a b }
{
    if coords[2 * a] != coords[2 * b] {
        return false;
    }
    coords[2 * a + 1] == coords[2 * b + 1]
}

// Whether two of three nodes do.
fn three(coords: &[i32], p: usize, q: usize, r: usize) -> bool
    requires { (p < r) × (q < r) × (2 * r + 1 < length coords.now) }
    ensures yes { result ≡ true → SameTwo coords.now (p ∷ q ∷ r ∷ []) }
    ensures no { result ≡ false → ¬ SameTwo coords.now (p ∷ q ∷ r ∷ []) }
{
    if same_place(coords, p, q) {
        return true;
    }
    if same_place(coords, p, r) {
        return true;
    }
    same_place(coords, q, r)
}

// Whether two of four nodes do: as corners of a quad, first those that an edge joins and then the two diagonals.
fn four(coords: &[i32], a: usize, b: usize, c: usize, d: usize) -> bool
    requires { (a < d) × (b < d) × (c < d) × (2 * d + 1 < length coords.now) }
    ensures yes { result ≡ true → SameTwo coords.now (a ∷ b ∷ c ∷ d ∷ []) }
    ensures no { result ≡ false → ¬ SameTwo coords.now (a ∷ b ∷ c ∷ d ∷ []) }
{
    if same_place(coords, a, b) {
        return true;
    }
    if same_place(coords, a, c) {
        return true;
    }
    if same_place(coords, b, d) {
        return true;
    }
    if same_place(coords, c, d) {
        return true;
    }
    if same_place(coords, a, d) {
        return true;
    }
    same_place(coords, b, c)
}

// Refusal 4 or 21, or none, of a triangle's nodes. Each limit stands in a call, so that none is looked up for a coordinate.
fn triangle_code(coords: &[i32], limit: u32) -> Result<(), Refusal>
    requires { (limit < 2147483648) × (5 < length coords.now) }
    ensures { Coded (corner_codes limit (0 ∷ 1 ∷ 2 ∷ []) coords.now) (code_of result) }
{
    if !ranged(coords, limit) {
        return Err(Refusal::Outside);
    }
    if three(coords, 0, 1, 2) {
        return Err(Refusal::Collapsed);
    }
    Ok(())
}

// The same of a quad's nodes, whose corners are 0, 2, c and d.
fn quad_code(coords: &[i32], c: usize, d: usize) -> Result<(), Refusal>
    requires { (2 < c) × (c < d) × (2 * d + 1 < length coords.now) }
    ensures { Coded (corner_codes 2048 (0 ∷ 2 ∷ c ∷ d ∷ []) coords.now) (code_of result) }
{
    if !ranged(coords, 2048) {
        return Err(Refusal::Outside);
    }
    if four(coords, 0, 2, c, d) {
        return Err(Refusal::Collapsed);
    }
    Ok(())
}

impl Kind {
    // Refusal 4 or 21, or none, of the nodes of an element of the kind.
    pub fn node_code(self, coords: &[i32]) -> Result<(), Refusal>
        requires { length coords.now ≡ 2 * nodes_of self }
        ensures { Coded (node_codes (meant self) coords.now no_more) (code_of result) }
    {
        match self {
            Kind::Six => triangle_code(coords, 65536),
            Kind::Eight => quad_code(coords, 5, 7),
            Kind::Nine => quad_code(coords, 6, 8),
            Kind::Ten => triangle_code(coords, 1024),
        }
    }

    // Refusal 3, 4 or 21, or none, of its coordinate list. A triangle's kind stands in its call, so that no loop over its coordinates is
    // left.
    pub fn list_code(self, coords: &[i32]) -> Result<(), Refusal>
        ensures { Coded (element_codes (nodes_of self) coords.now no_more) (code_of result) }
    {
        match self {
            Kind::Six => Kind::Six.sized_code(coords),
            _ => self.sized_code(coords),
        }
    }

    // The same, of any kind.
    fn sized_code(self, coords: &[i32]) -> Result<(), Refusal>
        ensures { Coded (element_codes (nodes_of self) coords.now no_more) (code_of result) }
    {
        if coords.len() != 2 * self.nodes() {
            return Err(Refusal::Length);
        }
        self.node_code(coords)
    }

    // Refusal 2, 3, 4 or 21, or none.
    fn level_code(self, limit: u8, coords: &[i32]) -> Result<(), Refusal>
        ensures { Coded (level_codes (nodes_of self) limit coords.now) (code_of result) }
    {
        if self.greatest_level() < limit {
            return Err(Refusal::Level);
        }
        self.list_code(coords)
    }
}

// The kind of an element, or refusal 1, 3, 4 or 21.
pub fn element_code(kind: u8, coords: &[i32]) -> Result<Kind, Refusal>
    ensures code { Coded (bounds_codes kind coords.now) (code_of result) }
    ensures kind { IfOk result (λ k. nodes_of k ≡ kind) }
{
    let k = Kind::try_from(kind)?;
    k.list_code(coords)?;
    Ok(k)
}

// The kind of an element, or refusal 1, 2, 3, 4 or 21.
pub fn verdict_code(kind: u8, limit: u8, coords: &[i32]) -> Result<Kind, Refusal>
    ensures code { Coded (verdict_codes kind limit coords.now) (code_of result) }
    ensures kind { IfOk result (λ k. nodes_of k ≡ kind) }
{
    let k = Kind::try_from(kind)?;
    k.level_code(limit, coords)?;
    Ok(k)
}

// The same of an element that is to go into a block.
pub fn stored_code(kind: u8, limit: u8, coords: &[i32]) -> Result<(), Refusal>
    ensures { Coded (stored_codes kind limit coords.now) (code_of result) }
{
    if !stored(kind) {
        return Err(Refusal::Kind);
    }
    Kind::try_from(kind)?.level_code(limit, coords)
}

// The same of a six-node triangle, where no other kind is taken.
pub fn six_code(kind: u8, limit: u8, coords: &[i32]) -> Result<(), Refusal>
    ensures { Coded (six_codes kind limit coords.now) (code_of result) }
{
    if kind != 6 {
        return Err(Refusal::Kind);
    }
    Kind::Six.level_code(limit, coords)
}
