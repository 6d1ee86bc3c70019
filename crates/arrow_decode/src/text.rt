// Columns of texts and binaries.
ghost use Rattle.std.specs.Prelude.{◌≡◌, ◌↔◌, ◌+◌, ◌-◌, ◌*◌, ◌/◌, ◌%◌, ◌<◌, ◌≤◌, ◌^◌, length, map, min, [], IfOk, IsTrue, option_copied};
ghost use Rattle.std.specs.Char.{is_ascii};
ghost use Rattle.std.specs.List.{concat, list_all, slice_range};
ghost use Rattle.std.specs.Simd.{first_chunks};
ghost use Rattle.byteorder.specs.Endian.{little_number};
ghost use Rattle.sub_types.specs.Optional.{optional};
ghost use Rattle.sub_types.specs.Slots.{slots};
ghost use Rattle.col_text.specs.Text.{pieces, Rise, NullsAreEmpty};
ghost use Rattle.arrow_meta.specs.Values as spec;
ghost use Rattle.arrow_decode.specs.Offsets.{offset_width, greatest_offset, front_offset, raw_offsets, behind, rises, risen, value_from};
ghost use Rattle.arrow_decode.specs.Characters.{BeginAtCharacters};

use byteorder::{ByteOrder, LittleEndian};
use col_text::{Ends, TextBuilder, TextCol};
use std::alloc::Global;
use sub_types::{Bits, NoMemory};

/// A column of `count` texts, or none where offsets or bytes don't hold them or a valid one isn't UTF-8.
#[tactic(auto, unfolding(arrow_meta::specs::Values::texts_in))]
pub(crate) fn texts(
    alloc: Global,
    wide: bool,
    count: usize,
    valid: Bits,
    offsets: &[u8],
    bytes: &[u8],
) -> Result<Option<TextCol>, NoMemory>
    requires long { length valid ≡ count }
    requires few { count < 2 ^ 31 }
    ensures { IfOk result (λ found. found ≡ spec.texts_in wide count valid offsets.now bytes.now) }
{
    let Some(column) = binaries(alloc, wide, count, valid, offsets, bytes)? else {
        return Ok(None);
    };
    if !are_texts(&column) {
        return Ok(None);
    }
    Ok(Some(column))
}

/// A column of `count` binaries, or none where offsets or bytes don't hold them.
pub(crate) fn binaries(
    alloc: Global,
    wide: bool,
    count: usize,
    valid: Bits,
    offsets: &[u8],
    bytes: &[u8],
) -> Result<Option<TextCol>, NoMemory>
    requires long { length valid ≡ count }
    requires few { count < 2 ^ 31 }
    ensures { IfOk result (λ found. found ≡ spec.binaries_in wide count valid offsets.now bytes.now) }
{
    if count == 0 {
        return Ok(Some(TextCol::from_parts(Vec::new(alloc), Vec::new(alloc), valid)));
    }
    if offset_size(wide) * (count + 1) > offsets.len() {
        return Ok(None);
    }
    let begin = first_offset(wide, offsets);
    let most = last_place(wide, bytes);
    if begin > most {
        return Ok(None);
    }
    let Some(ends) = find_ends(alloc, wide, count, begin, most - begin, offsets)? else {
        return Ok(None);
    };
    let end = begin + ends.get(count - 1);
    Ok(Some(column_of(alloc, ends, part(bytes, begin, end), valid)?))
}

// How many bytes an offset has.
fn offset_size(wide: bool) -> usize
    ensures size { result ≡ offset_width wide }
    ensures small { result ≤ 8 }
{
    if wide { 8 } else { 4 }
}

// The last place in the bytes that an offset can name.
fn last_place(wide: bool, bytes: &[u8]) -> usize
    ensures { result ≡ min (length bytes.now) (greatest_offset wide) }
{
    let greatest = if wide {
        i64::MAX as usize
    } else {
        i32::MAX as usize
    };
    bytes.len().min(greatest)
}

// The first offset. One below 0 is read as one above all that can be.
fn first_offset(wide: bool, buffer: &[u8]) -> usize
    requires { offset_width wide ≤ length buffer.now }
    ensures { result ≡ front_offset wide buffer.now }
{
    if wide {
        LittleEndian::read_u64(buffer) as usize
    } else {
        LittleEndian::read_u32(buffer) as usize
    }
}

// Where `count` values end whose bytes begin at a place, the offsets behind the first less that, or none where one is
// below the one before it or the last is above `most`.
fn find_ends(
    alloc: Global,
    wide: bool,
    count: usize,
    begin: usize,
    most: usize,
    buffer: &[u8],
) -> Result<Option<Ends>, NoMemory>
    requires few { count < 2 ^ 31 }
    requires long { offset_width wide * (count + 1) ≤ length buffer.now }
    requires within { begin + most ≤ greatest_offset wide }
    ensures { IfOk result (λ found. found ≡ risen most (behind begin (raw_offsets wide buffer.now 1 count))) }
{
    let size = offset_size(wide);
    let (_, others) = buffer.split_at(size);
    let (others, _) = others.split_at(size * count);
    if wide {
        find_wide_ends(alloc, begin, most, others)
    } else {
        find_short_ends(alloc, begin, most, others)
    }
}

// The same of offsets of eight bytes. Their ends take four bytes each where they can.
fn find_wide_ends(
    alloc: Global,
    begin: usize,
    most: usize,
    buffer: &[u8],
) -> Result<Option<Ends>, NoMemory>
    ensures { IfOk result (λ found. found ≡ risen most (map (λ chunk. (little_number 8 chunk + (2 ^ 64 - begin)) % 2 ^ 64)
        (first_chunks 8 (length buffer.now / 8) buffer.now))) }
{
    let places = read_wide_ends(alloc, begin, buffer)?;
    if !rise(&places, most) {
        return Ok(None);
    }
    Ok(Some(narrowed(alloc, &places)?))
}

// The same of offsets of four bytes.
fn find_short_ends(
    alloc: Global,
    begin: usize,
    most: usize,
    buffer: &[u8],
) -> Result<Option<Ends>, NoMemory>
    requires { begin + most < 2 ^ 32 }
    ensures { IfOk result (λ found. found ≡ risen most (map (λ chunk. (little_number 4 chunk + (2 ^ 64 - begin)) % 2 ^ 64)
        (first_chunks 4 (length buffer.now / 4) buffer.now))) }
{
    let places = read_short_ends(alloc, begin as u32, buffer)?;
    if !short_rise(&places, most) {
        return Ok(None);
    }
    Ok(Some(Ends::from_narrow(alloc, places)))
}

fn read_wide_ends(alloc: Global, begin: usize, buffer: &[u8]) -> Result<Vec<usize>, NoMemory>
    ensures { IfOk result (λ ends. ends.items ≡ map (λ chunk. (little_number 8 chunk + (2 ^ 64 - begin)) % 2 ^ 64)
        (first_chunks 8 (length buffer.now / 8) buffer.now)) }
{
    let (chunks, _) = buffer.as_chunks::<8>();
    let mut ends = Vec::with_capacity(alloc, chunks.len())?;
    for chunk in chunks {
        ends.push_reserved((LittleEndian::read_u64(chunk) as usize).wrapping_sub(begin));
    }
    Ok(ends)
}

// An offset that is below the first wraps round, and is then above any that a column has.
fn read_short_ends(alloc: Global, begin: u32, buffer: &[u8]) -> Result<Vec<u32>, NoMemory>
    ensures { IfOk result (λ ends. ends.items ≡ map (λ chunk. (little_number 4 chunk + (2 ^ 32 - begin)) % 2 ^ 32)
        (first_chunks 4 (length buffer.now / 4) buffer.now)) }
{
    let (chunks, _) = buffer.as_chunks::<4>();
    let mut ends = Vec::with_capacity(alloc, chunks.len())?;
    for chunk in chunks {
        ends.push_reserved(LittleEndian::read_u32(chunk).wrapping_sub(begin));
    }
    Ok(ends)
}

// These ends, of four bytes each where they can be.
fn narrowed(alloc: Global, places: &[usize]) -> Result<Ends, NoMemory>
    ensures { IfOk result (λ ends. ends ≡ places.now) }
{
    let mut ends = Ends::with_capacity(alloc, places.len())?;
    for place in places {
        ends.push(*place)?;
    }
    Ok(ends)
}

// No end is below the one before it, and the last is at most `most`.
fn rise(ends: &[usize], most: usize) -> bool
    ensures { result ≡ rises 0 ends.now most }
{
    let Some(last) = ends.last() else {
        return true;
    };
    let mut falls = false;
    for i in 1..ends.len() {
        falls = falls | (ends[i] < ends[i - 1]);
    }
    !falls && *last <= most
}

// The same of ends of four bytes.
fn short_rise(ends: &[u32], most: usize) -> bool
    ensures { result ≡ rises 0 ends.now most }
{
    let Some(last) = ends.last() else {
        return true;
    };
    let mut is_falling = false;
    for i in 1..ends.len() {
        is_falling = is_falling | (ends[i] < ends[i - 1]);
    }
    !is_falling && *last as usize <= most
}

// The bytes between these ends, null where they aren't valid.
fn column_of(alloc: Global, ends: Ends, bytes: &[u8], valid: Bits) -> Result<TextCol, NoMemory>
    requires rising { Rise 0 ends (length bytes.now) }
    requires counted { length ends ≡ length valid }
    ensures { IfOk result (λ column. column ≡ optional (pieces 0 ends bytes.now) valid) }
{
    if !nulls_are_empty(&ends, &valid) {
        return without_nulls(alloc, &ends, bytes, &valid);
    }
    let bytes = bytes.to_vec(alloc)?;
    Ok(TextCol::from_ends(ends, bytes, valid))
}

// No null has bytes.
fn nulls_are_empty(ends: &Ends, valid: &Bits) -> bool
    requires { length ends.now ≡ length valid.now }
    ensures { IsTrue result → NullsAreEmpty 0 ends.now valid.now }
{
    if valid.is_all() {
        return true;
    }
    let mut start = 0;
    for i in 0..ends.len() {
        let end = ends.get(i);
        if !valid.get(i) && end != start {
            return false;
        }
        start = end;
    }
    true
}

// The same where a null has bytes, which a column doesn't keep.
fn without_nulls(
    alloc: Global,
    ends: &Ends,
    bytes: &[u8],
    valid: &Bits,
) -> Result<TextCol, NoMemory>
    requires rising { Rise 0 ends.now (length bytes.now) }
    requires counted { length ends.now ≡ length valid.now }
    ensures { IfOk result (λ column. column ≡ optional (pieces 0 ends.now bytes.now) valid.now) }
{
    let mut builder = TextBuilder::new(alloc);
    let mut start = 0;
    for i in 0..ends.len() {
        let end = ends.get(i);
        builder.push(value_between(bytes, start, end, valid.get(i)))?;
        start = end;
    }
    Ok(builder.finish())
}

// The bytes between two places, if they are valid.
fn value_between(bytes: &[u8], from: usize, to: usize, is_valid: bool) -> Option<&[u8]>
    requires rising { from ≤ to }
    requires within { to ≤ length bytes.now }
    ensures { option_copied result ≡ value_from (slice_range bytes.now from to) is_valid }
{
    if !is_valid {
        return None;
    }
    Some(part(bytes, from, to))
}

fn part(bytes: &[u8], from: usize, to: usize) -> &[u8]
    requires rising { from ≤ to }
    requires within { to ≤ length bytes.now }
    ensures { result.now ≡ slice_range bytes.now from to }
{
    &bytes[from..to]
}

// Each value is UTF-8: they are joined, and each begins where a character does.
fn are_texts(column: &TextCol) -> bool
    ensures { result ≡ list_all spec.is_text column.now }
{
    let Ok(text) = simdutf8::basic::from_utf8(column.bytes()) else {
        return false;
    };
    begin_at_characters(column, text)
}

// Each value begins where a character does, as anywhere in ASCII.
fn begin_at_characters(column: &TextCol, text: &str) -> bool
    requires { text.now ≡ concat (slots [] column.now) }
    ensures { IsTrue result ↔ BeginAtCharacters column.now }
{
    if are_ascii(text.as_bytes()) {
        return true;
    }
    for i in 0..column.len() {
        if !text.is_char_boundary(column.offset(i)) {
            return false;
        }
    }
    true
}

fn are_ascii(bytes: &[u8]) -> bool
    ensures { result ≡ list_all is_ascii bytes.now }
{
    let mut is_high = false;
    for byte in bytes {
        is_high = is_high | (*byte >= 128);
    }
    !is_high
}
