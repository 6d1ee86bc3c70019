// Buffers of a body, and the bits in them.
ghost use Rattle.std.specs.Prelude.{◌≡◌, ◌+◌, ◌*◌, ◌<◌, ◌≤◌, length, option_copied, IfOk, IfSome};
ghost use Rattle.arrow_meta.specs.Batch.{buffer_in};
ghost use Rattle.arrow_meta.specs.Values.{bits_in, validity_in};

use std::alloc::Global;
use sub_types::{Bits, NoMemory};

/// The buffer that begins at `extent.0` and has `extent.1` bytes, if it lies in the body.
#[tactic(auto, unfolding(arrow_meta::specs::Batch::buffer_in))]
pub(crate) fn buffer<'a>(body: &'a [u8], extent: &(i64, i64)) -> Option<&'a [u8]>
    ensures { option_copied result ≡ buffer_in body.entry.now extent.now }
{
    if extent.0 < 0 || extent.1 < 0 {
        return None;
    }
    let from = extent.0 as u64;
    let len = extent.1 as u64;
    let size = body.len() as u64;
    if len > size || from > size - len {
        return None;
    }
    let (_, rest) = body.split_at(from as usize);
    let (bytes, _) = rest.split_at(len as usize);
    Some(bytes)
}

/// The first `count` bits of a buffer, or none where it has fewer.
#[tactic(auto, unfolding(arrow_meta::specs::Values::bits_in))]
pub(crate) fn bits(alloc: Global, count: usize, buffer: &[u8]) -> Result<Option<Bits>, NoMemory>
    ensures bits { IfOk result (λ found. found ≡ bits_in count buffer.now) }
    ensures long { IfOk result (λ found. IfSome found (λ bits. length bits ≡ count)) }
{
    let size = byte_count(count);
    if size > buffer.len() {
        return Ok(None);
    }
    let (bytes, _) = buffer.split_at(size);
    Ok(Some(Bits::from_packed(bytes.to_vec(alloc)?, count)))
}

/// Which of `count` values are valid: all where the buffer is empty, or none where it has too few bits.
#[tactic(auto, unfolding(arrow_meta::specs::Values::validity_in))]
pub(crate) fn validity(alloc: Global, count: usize, buffer: &[u8]) -> Result<Option<Bits>, NoMemory>
    ensures validity { IfOk result (λ found. found ≡ validity_in count buffer.now) }
    ensures long { IfOk result (λ found. IfSome found (λ bits. length bits ≡ count)) }
{
    if buffer.is_empty() {
        return Ok(Some(Bits::ones(alloc, count)?));
    }
    bits(alloc, count, buffer)
}

// How many bytes so many bits need.
fn byte_count(count: usize) -> usize
    ensures enough { count ≤ 8 * result }
    ensures no_more { 8 * result < count + 8 }
{
    if count % 8 == 0 {
        count / 8
    } else {
        count / 8 + 1
    }
}
