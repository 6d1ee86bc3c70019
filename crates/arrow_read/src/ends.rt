// Both ends of a file.
ghost use Rattle.std.specs.Prelude.{◌≡◌, ◌+◌, ◌<◌, ◌≤◌, ◌^◌, length, drop, ◌&&◌, IfOk};
ghost use Rattle.std.specs.Str.{bytes_eq};
ghost use Rattle.arrow_meta.specs.File.{magic};
ghost use Rattle.world.specs.Counts.{HasCause};
ghost use Rattle.arrow_meta.specs.Head.{footer_place};
ghost use Rattle.arrow_read.specs.Told.{IfTold};
ghost use Rattle.arrow_read.specs.Refused.{Opens};

use crate::OpenError;
use crate::range::read_range;
use crate::size::footer_size;
use std::alloc::Global;
use world::Reader;

const MAGIC: &[u8] = b"ARROW1";

/// Where the footer of a file of this length begins.
pub(crate) fn footer_start<R: Reader>(
    alloc: Global,
    reader: &mut R,
    len: u64,
) -> Result<u64, OpenError>
    requires { IfTold (R.bytes reader.old) (λ told. len ≡ length told) }
    ensures start { IfTold (R.bytes reader.old) (λ told. Opens (λ start. start) result (footer_place told)) }
    ensures within { IfOk result (λ start. start + 11 ≤ len) }
    ensures short { IfOk result (λ start. len < start + 10 + 2 ^ 31) }
    ensures cause { HasCause OpenError.ReadFault (R.faults reader.old) (R.faults reader.new) result }
    ensures bytes { R.bytes reader.new ≡ R.bytes reader.old }
{
    if len < 18 {
        return Err(OpenError::NotArrow);
    }
    let front = read_range(alloc, reader, 0, 6)?;
    let back = read_range(alloc, reader, len - 10, 10)?;
    if !is_arrow(&front, &back) {
        return Err(OpenError::NotArrow);
    }
    let Some(size) = footer_size(&back, len) else {
        return Err(OpenError::BadFooter { place: len - 10 });
    };
    Ok(len - 10 - size)
}

// Whether the first six bytes and the last ten are those of an Arrow file.
fn is_arrow(front: &[u8], back: &[u8]) -> bool
    requires { length back.now ≡ 10 }
    ensures { result ≡ (bytes_eq front.now magic && bytes_eq (drop 4 back.now) magic) }
{
    let (_, end) = back.split_at(4);
    front == MAGIC && end == MAGIC
}
