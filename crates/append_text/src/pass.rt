// A pass over the lines of a text.
ghost use Rattle.std.specs.Prelude.{◌≡◌, [], ◌∷◌, ◌≤◌, ◌<◌, length, drop};
ghost use Rattle.element.specs.Refusals.{Accepted};
ghost use Rattle.batch.specs.Tallies.{Moves};
ghost use Rattle.mesh_text.specs.Rows.{lines, line, first as first_of};
ghost use Rattle.mesh_text.specs.Tests.{number_of};
ghost use Rattle.record_text.specs.Faults.{Silent, form_codes};
ghost use Rattle.record_text.specs.Values.{given_of, said_in};
ghost use Rattle.append_text.specs.Passes.{handed, givens_by, Gathers};

use crate::RefusedLine;
use crate::values::{coords_at, id_at, kind_at, limit_at};
use batch::{Tally, take};
use faults::refusal::Refusal;
use record_text::lines::{line_end, silent};

// Tries what is handed over of the line at a place, which counts.
fn take_record(t: &[u8], at: usize, s: Tally, out: &mut [u8]) -> Result<Tally, Refusal>
    requires inside { at ≤ length t.now }
    requires fits { number_of (first_of (line (drop at t.now))) < 4294967296 }
    requires few { s.taken ≤ s.count }
    requires long { 64000 ≤ length out.old }
    ensures { Moves (handed (line (drop at t.now)) ∷ []) 0 s out.old result out.new }
{
    let mut xs = [0i64; 19];
    let n = coords_at(t, at, &mut xs);
    let id = id_at(t, at);
    let kind = kind_at(t, at);
    let limit = limit_at(t, at);
    take(s, id, kind, limit, &xs[..n], out)
}

// Tries the record of the line at a place, if it counts.
fn take_line(t: &[u8], at: usize, s: Tally, out: &mut [u8]) -> Result<Tally, Refusal>
    requires inside { at ≤ length t.now }
    requires fits { ¬ Silent (line (drop at t.now)) → number_of (first_of (line (drop at t.now))) < 4294967296 }
    requires few { s.taken ≤ s.count }
    requires long { 64000 ≤ length out.old }
    ensures { Moves (givens_by (line (drop at t.now))) 0 s out.old result out.new }
{
    if silent(t, at) {
        return Ok(s);
    }
    take_record(t, at, s, out)
}

// All lines of a text, up to the first whose record is refused.
pub fn gather(t: &[u8], first: Tally, out: &mut [u8]) -> Result<Tally, RefusedLine>
    requires good { Accepted (form_codes t.now) }
    requires fresh { (first.taken ≡ 0) × (first.count ≤ 800) }
    requires long { 64000 ≤ length out.old }
    ensures { Gathers (said_in 1 (lines t.now)) first out.old result out.new }
{
    let mut s = first;
    let mut at = 0;
    let mut n: u64 = 1;
    while at < t.len() {
        let end = line_end(t, at);
        s = match take_line(t, at, s, out) {
            Ok(tally) => tally,
            Err(refusal) => return Err(RefusedLine { refusal, line: n }),
        };
        at = end + 1;
        n += 1;
    }
    Ok(s)
}
