// The records of a text without a fault, into a buffer that has a good block.
ghost use Rattle.std.specs.Prelude.{◌≡◌, ◌≤◌, length, take};
ghost use Rattle.element.specs.Refusals.{Accepted};
ghost use Rattle.block.specs.Block.{count_of};
ghost use Rattle.append_text.specs.Calls.{text_codes, as_texted, Tries};

use crate::pass::gather;
use crate::{Added, RefusedAt};
use batch::{begin, finish};

// Tries all records, and writes them behind the block if none is refused.
fn write_all(
    t: &[u8],
    buffer: &mut [u8],
    used: u64,
    count: u32,
    out: &mut [u8],
) -> Result<Added, RefusedAt>
    requires good { Accepted (text_codes t.now buffer.old used) }
    requires counted { count ≡ count_of (take used buffer.old) }
    requires long { 64000 ≤ length out.old }
    ensures { Tries t.now buffer.old used (as_texted result) buffer.new }
{
    let first = begin(buffer, used as usize, count);
    let s = gather(t, first, out)?;
    let end = finish(buffer, used, s, out);
    Ok(Added {
        used: end,
        appended: s.taken,
    })
}

// The same, with room for the records of a whole block.
pub fn append_all(t: &[u8], buffer: &mut [u8], used: u64, count: u32) -> Result<Added, RefusedAt>
    requires good { Accepted (text_codes t.now buffer.old used) }
    requires counted { count ≡ count_of (take used buffer.old) }
    ensures { Tries t.now buffer.old used (as_texted result) buffer.new }
{
    let mut out = [0u8; 64000];
    write_all(t, buffer, used, count, &mut out)
}
