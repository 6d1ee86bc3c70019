// Columns of texts under a dictionary.
ghost use Rattle.std.specs.Prelude.{◌≡◌, ◌+◌, ◌*◌, ◌<◌, ◌≤◌, ◌^◌, length, map, IfOk, IsTrue, Some, true, false, slice_index_or};
ghost use Rattle.std.specs.Option.{option_map};
ghost use Rattle.sub_types.specs.OptionSteps.{all_of};
ghost use Rattle.arrow_meta.specs.Known.{is_index_size};
ghost use Rattle.arrow_meta.specs.Natural.{natural};
ghost use Rattle.arrow_meta.specs.Values.{encoded_in};
ghost use Rattle.arrow_decode.specs.Indices as spec;

use byteorder::{ByteOrder, LittleEndian};
use col_text::TextCol;
use std::alloc::Global;
use sub_types::{Bits, NoMemory};

/// The texts that `count` indices of `size` bytes name, or none where the buffer has fewer or a valid one
/// names none.
pub(crate) fn encoded(
    alloc: Global,
    size: u8,
    signed: bool,
    count: usize,
    valid: &Bits,
    dictionary: &TextCol,
    buffer: &[u8],
) -> Result<Option<TextCol>, NoMemory>
    requires size { IsTrue (is_index_size size) }
    requires long { length valid.now ≡ count }
    requires few { count < 2 ^ 31 }
    ensures { IfOk result (λ found. found ≡ encoded_in size signed count valid.now dictionary.now buffer.now) }
{
    if size as usize * count > buffer.len() {
        return Ok(None);
    }
    let Some(at) = places(alloc, size, signed, count, valid, dictionary.len(), buffer)? else {
        return Ok(None);
    };
    Ok(Some(dictionary.view().gather_or_null(alloc, &at)?))
}

// The place that each index names among so many values, and for a null the one behind them; or none where a valid
// one names none.
fn places(
    alloc: Global,
    size: u8,
    signed: bool,
    count: usize,
    valid: &Bits,
    values: usize,
    buffer: &[u8],
) -> Result<Option<Vec<u64>>, NoMemory>
    requires size { IsTrue (is_index_size size) }
    requires long { length valid.now ≡ count }
    requires few { count < 2 ^ 31 }
    requires within { size * count ≤ length buffer.now }
    ensures { IfOk result (λ found. option_map (λ at. at.items) found
        ≡ all_of (map (spec.place_among values) (spec.optional_indices size signed count valid.now buffer.now))) }
{
    let mut at = Vec::with_capacity(alloc, count)?;
    for i in 0..count {
        let Some(place) = place_at(size, signed, valid, values as u64, buffer, i) else {
            return Ok(None);
        };
        at.push(place)?;
    }
    Ok(Some(at))
}

// The place that the index at a place names.
fn place_at(
    size: u8,
    signed: bool,
    valid: &Bits,
    values: u64,
    buffer: &[u8],
    i: usize,
) -> Option<u64>
    requires size { IsTrue (is_index_size size) }
    requires valid { i < length valid.now }
    requires few { i < 2 ^ 31 }
    requires within { size * (i + 1) ≤ length buffer.now }
    ensures null { slice_index_or valid.now i false ≡ false → result ≡ Some values }
    ensures valid { slice_index_or valid.now i false ≡ true
        → result ≡ spec.place_among values (Some (spec.index_number size signed buffer.now i)) }
{
    if !valid.get(i) {
        return Some(values);
    }
    let index = index_at(size, signed, buffer, i)?;
    if index >= values {
        return None;
    }
    Some(index)
}

// The index at a place, or none where it is below 0.
fn index_at(size: u8, signed: bool, buffer: &[u8], i: usize) -> Option<u64>
    requires size { IsTrue (is_index_size size) }
    requires few { i < 2 ^ 31 }
    requires within { size * (i + 1) ≤ length buffer.now }
    ensures { result ≡ natural (spec.index_number size signed buffer.now i) }
{
    let (_, bytes) = buffer.split_at(size as usize * i);
    if !signed {
        return Some(LittleEndian::read_uint(bytes, size as usize));
    }
    let index = signed_index(size, bytes);
    if index < 0 {
        return None;
    }
    Some(index as u64)
}

fn signed_index(size: u8, bytes: &[u8]) -> i64
    requires size { IsTrue (is_index_size size) }
    requires within { size ≤ length bytes.now }
    ensures { result ≡ spec.signed_index size bytes.now }
{
    if size == 1 {
        return i64::from(bytes[0].cast_signed());
    }
    if size == 2 {
        return i64::from(LittleEndian::read_i16(bytes));
    }
    if size == 4 {
        return i64::from(LittleEndian::read_i32(bytes));
    }
    LittleEndian::read_i64(bytes)
}
