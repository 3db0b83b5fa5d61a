// The call `floor_verdict` (02, Ask 3): a point of a triangle is bad where 100·J ≤ p·S, S the Jacobian of the straight-sided triangle. And
// the profiles that elements are judged by.
#![tactic(auto)]

ghost use Rattle.std.specs.Prelude.{◌≡◌, ◌≤◌, pos, ◌*ℤ◌};
ghost use Rattle.element.specs.Kinds.{six};
ghost use Rattle.element.specs.Origin.{Inside};
ghost use Rattle.element.specs.Refusals.{Coded};
ghost use Rattle.faults.specs.Refusal.{code_of};
ghost use Rattle.walks.specs.Elements.{walk_of};
ghost use Rattle.floor.specs.Floor as floor;
ghost use Rattle.floor.specs.Steps.{shifted_by, Room};
ghost use Rattle.floor.specs.Calls.{floor_codes, FloorOf, ToldBy};

use faults::kind::Kind;
use faults::refusal::Refusal;
use points::{Net, coordinates};
use steps::Walk;
use verdict::{Judged, Word, verdict};

// What an element is judged by: the plain verdict, or a floor of so many percent on its distortion.
#[derive(Clone, Copy)]
pub enum Profile {
    Plain,
    Floor(u8),
}

// S, the determinant of A1-A0 and A2-A0.
fn straight(coords: &[i32]) -> i64
    requires { Inside six coords.now }
    ensures { result ≡ floor.straight coords.now }
{
    let x = coordinates(coords, 9, 0);
    let y = coordinates(coords, 9, 1);
    Net { x, y }.across(0, 1, 0, 2)
}

// 2·p·S.
fn twice_share(coords: &[i32], p: u8) -> i64
    requires { (p ≤ 99) × Inside six coords.now }
    ensures { result ≡ pos 2 *ℤ floor.share p coords.now }
{
    2 * (p as i64 * straight(coords))
}

// The values, each 100 times and less the given number.
fn shifted(c: [i64; 6], less: i64) -> [i64; 6]
    requires { Room c less }
    ensures { result ≡ shifted_by less c }
{
    let mut values = [0; 6];
    for k in 0..6 {
        values[k] = 100 * c[k] - less;
    }
    values
}

// The walk over the shifted values.
fn walk_floor(coords: &[i32], p: u8, limit: u32) -> Walk
    requires { (limit ≤ 7) × (p ≤ 99) × Inside six coords.now }
    ensures { result ≡ walk_of six limit (floor.shifted p coords.now) }
{
    let less = twice_share(coords, p);
    let c = shifted(triangle::values(coords), less);
    triangle_walk::walk_cell(&c, limit, 0, limit, 0, 0, true)
}

// Refusal 1, 2, 3, 4, 21, 16 or 17, or none.
fn floor_code(kind: u8, limit: u8, coords: &[i32], p: u8) -> Result<(), Refusal>
    ensures { Coded (floor_codes kind limit coords.now p) (code_of result) }
{
    if kind != 6 {
        return Err(Refusal::Kind);
    }
    if 7 < limit {
        return Err(Refusal::Level);
    }
    Kind::Six.list_code(coords)?;
    if p < 1 {
        return Err(Refusal::Percentage);
    }
    if 99 < p {
        return Err(Refusal::Percentage);
    }
    if straight(coords) <= 0 {
        return Err(Refusal::Straight);
    }
    Ok(())
}

// The verdict on a triangle with a floor of p percent on its distortion, under a level limit.
pub fn floor_verdict(kind: u8, limit: u8, coords: &[i32], p: u8) -> Judged
    ensures { FloorOf kind limit coords.now p result }
{
    if let Err(refusal) = floor_code(kind, limit, coords, p) {
        return verdict::refused(refusal.number());
    }
    let levels = limit as u32;
    verdict::told(walk_floor(coords, p, levels), levels)
}

// The answer of the profile's call.
pub fn verdict_by(by: Profile, kind: u8, limit: u8, coords: &[i32]) -> Judged
    ensures { ToldBy by kind limit coords.now result }
{
    match by {
        Profile::Plain => verdict(kind, limit, coords),
        Profile::Floor(p) => floor_verdict(kind, limit, coords, p),
    }
}
