// Numbers and offsets at a place of the bytes.
ghost use Rattle.std.specs.Prelude.{◌≡◌, ◌+◌, ◌<◌, ◌^◌, length, IfOk};
ghost use Rattle.fb_bytes.specs.Object.{IsWidth};
ghost use Rattle.fb_bytes.specs.Reading as reading;

use crate::BadBuffer;
use byteorder::{ByteOrder, LittleEndian};

// The item at `place` isn't inside.
pub(crate) fn bad(place: usize) -> BadBuffer
    requires { place < 2 ^ 63 }
    ensures { result ≡ reading.bad_at place }
{
    BadBuffer {
        place: place as i64,
    }
}

// The number in the `width` bytes at `place`.
#[tactic(auto, unfolding(crate::specs::Reading::number_at))]
pub(crate) fn number_at(bytes: &[u8], width: usize, place: usize) -> Result<u64, BadBuffer>
    requires small { length bytes.now < 2 ^ 31 }
    requires near { place < 2 ^ 40 }
    requires width { IsWidth width }
    ensures value { result ≡ reading.number_at bytes.now width place }
{
    if place + width > bytes.len() {
        return Err(bad(place));
    }
    let (_, rest) = bytes.split_at(place);
    Ok(LittleEndian::read_uint(rest, width))
}

// The place that the offset at `place` leads to.
#[tactic(auto, unfolding(crate::specs::Reading::offset_at, crate::specs::Reading::number_at))]
pub(crate) fn offset_at(bytes: &[u8], place: usize) -> Result<usize, BadBuffer>
    requires small { length bytes.now < 2 ^ 31 }
    requires near { place < 2 ^ 40 }
    ensures value { result ≡ reading.offset_at bytes.now place }
    ensures near { IfOk result (λ to. to < place + 2 ^ 32) }
{
    if place + 4 > bytes.len() {
        return Err(bad(place));
    }
    let (_, rest) = bytes.split_at(place);
    Ok(place + LittleEndian::read_u32(rest) as usize)
}
