// The elements of a text that is good, into a buffer that has a good block.
ghost use Rattle.std.specs.Prelude.{◌≡◌, ◌≤◌, length, take};
ghost use Rattle.element.specs.Refusals.{Accepted};
ghost use Rattle.block.specs.Block.{count_of};
ghost use Rattle.mesh_nodes.specs.Nodes.{Seats};
ghost use Rattle.mesh.specs.Calls.{mesh_codes, as_meshed, Tries};

use crate::Added;
use crate::pass::gather;
use crate::source::Source;
use batch::{begin, finish};
use block::Refused;
use mesh_nodes::find::seat;
use mesh_nodes::want::want;

// Tries all elements, and writes those that are taken behind the block.
fn write_all(
    source: Source<'_>,
    buffer: &mut [u8],
    used: u64,
    count: u32,
    out: &mut [u8],
) -> Result<Added, Refused>
    requires good { Accepted (mesh_codes source.t.now buffer.old used) }
    requires counted { count ≡ count_of (take used buffer.old) }
    requires seats { Seats source.t.now source.places.now }
    requires long { 64000 ≤ length out.old }
    ensures { Tries source.entry.t.now source.entry.limit buffer.old used (as_meshed result) buffer.new }
{
    let first = begin(buffer, used as usize, count);
    let s = gather(source, first, out)?;
    let end = finish(buffer, used, s, out);
    Ok(Added {
        used: end,
        appended: s.taken,
        passed: s.passed,
    })
}

// The same, with room for the records of a whole block.
fn with_records(
    source: Source<'_>,
    buffer: &mut [u8],
    used: u64,
    count: u32,
) -> Result<Added, Refused>
    requires good { Accepted (mesh_codes source.t.now buffer.old used) }
    requires counted { count ≡ count_of (take used buffer.old) }
    requires seats { Seats source.t.now source.places.now }
    ensures { Tries source.entry.t.now source.entry.limit buffer.old used (as_meshed result) buffer.new }
{
    let mut out = [0u8; 64000];
    write_all(source, buffer, used, count, &mut out)
}

// The same, where the places of the nodes that are wanted are yet to be found.
fn with_places(
    t: &[u8],
    numbers: &mut [u64],
    places: &mut [usize],
    limit: u8,
    buffer: &mut [u8],
    used: u64,
    count: u32,
) -> Result<Added, Refused>
    requires good { Accepted (mesh_codes t.now buffer.old used) }
    requires counted { count ≡ count_of (take used buffer.old) }
    requires seats { Seats t.now places.old }
    ensures { Tries t.now limit buffer.old used (as_meshed result) buffer.new }
{
    let n = want(t, numbers);
    let numbers = &numbers[..n];
    seat(t, numbers, places);
    let source = Source {
        t,
        numbers,
        places,
        limit,
    };
    with_records(source, buffer, used, count)
}

// The elements of a text, with a table for the nodes of 800 elements and one more.
pub fn append_all(
    t: &[u8],
    limit: u8,
    buffer: &mut [u8],
    used: u64,
    count: u32,
) -> Result<Added, Refused>
    requires good { Accepted (mesh_codes t.now buffer.old used) }
    requires counted { count ≡ count_of (take used buffer.old) }
    ensures { Tries t.now limit buffer.old used (as_meshed result) buffer.new }
{
    let mut numbers = [0u64; 8192];
    let mut places = [0usize; 8192];
    with_places(t, &mut numbers, &mut places, limit, buffer, used, count)
}
