// The metadata of one block.
ghost use Rattle.std.specs.Prelude.{◌≡◌, ◌+◌, ◌<◌, ◌≤◌, ◌^◌, length, vec_len, IfOk, IfSome, OnSome, Some};
ghost use Rattle.std.specs.Option.{option_map};
ghost use Rattle.std.specs.Result.{result_ok};
ghost use Rattle.world.specs.Counts.{HasCause};
ghost use Rattle.arrow_meta.specs.Places.{place_in, metadata_in};
ghost use Rattle.arrow_meta.specs.Head as spec;
ghost use Rattle.arrow_read.specs.Told.{IfTold};
ghost use Rattle.arrow_read.specs.Refused.{Opens};
ghost use Rattle.arrow_read.specs.Sound.{IsPlaced};
ghost use Rattle.arrow_read.specs.Metas.{meta_of, text_of};
ghost use Rattle.arrow_read.specs.Extents.{extent_seen, bytes_seen, pair_bytes, block_seen, IsInside, IsWithin};

use crate::OpenError;
use crate::extent::Extent;
use crate::metas::TextBlock;
use crate::place::find_extent;
use crate::range::read_range;
use crate::size::metadata_size;
use arrow_meta::{Block, MetaError, RecordMeta, read_dictionary, read_message};
use std::alloc::Global;
use world::{FolderError, Reader};

/// The metadata of the message at a place, if it begins with the mark and its size is sound.
#[tactic(auto, using(crate::proofs::SizeLaws::metadata_is))]
pub(crate) fn metadata<R: Reader>(
    alloc: Global,
    reader: &mut R,
    place: Extent,
) -> Result<Option<Vec<u8>>, FolderError>
    requires { IfTold (R.bytes reader.old) (λ told. IsInside (length told) place) }
    ensures metadata { IfOk result (λ found. IfTold (R.bytes reader.old) (λ told.
        option_map bytes_seen found ≡ metadata_in told (extent_seen place))) }
    ensures short { IfOk result (λ found. IfSome found (λ metadata. vec_len metadata < 2 ^ 31)) }
    ensures cause { HasCause FolderError.Failed (R.faults reader.old) (R.faults reader.new) result }
    ensures bytes { R.bytes reader.new ≡ R.bytes reader.old }
{
    let head = read_range(alloc, reader, place.offset, 8)?;
    let Some(size) = metadata_size(&head, place.meta_len) else {
        return Ok(None);
    };
    let metadata = read_range(alloc, reader, place.offset + 8, size)?;
    Ok(Some(metadata))
}

/// The metadata of a block, if it lies before the footer and begins as metadata does.
fn block_metadata<R: Reader>(
    alloc: Global,
    reader: &mut R,
    footer: u64,
    block: &Block,
) -> Result<Option<(Extent, Vec<u8>)>, FolderError>
    requires { IfTold (R.bytes reader.old) (λ told. footer ≤ length told) }
    ensures metadata { IfOk result (λ found. IfTold (R.bytes reader.old) (λ told.
        option_map pair_bytes found ≡ spec.block_metadata told (place_in footer block.now))) }
    ensures place { IfOk result (λ found. IfSome found (λ pair. place_in footer block.now ≡ Some (extent_seen pair.0))) }
    ensures inside { IfOk result (λ found. IfSome found (λ pair. IsInside footer pair.0)) }
    ensures placed { IfOk result (λ found. OnSome found (IsPlaced block.now)) }
    ensures short { IfOk result (λ found. IfSome found (λ pair. vec_len pair.1 < 2 ^ 31)) }
    ensures cause { HasCause FolderError.Failed (R.faults reader.old) (R.faults reader.new) result }
    ensures bytes { R.bytes reader.new ≡ R.bytes reader.old }
{
    let Some(place) = find_extent(footer, block) else {
        return Ok(None);
    };
    match metadata(alloc, reader, place)? {
        Some(metadata) => Ok(Some((place, metadata))),
        None => Ok(None),
    }
}

/// What the block of a record batch says, none where it is bad.
#[tactic(auto, unfolding(arrow_meta::specs::Head::record_at))]
pub(crate) fn record_meta<R: Reader>(
    alloc: Global,
    reader: &mut R,
    footer: u64,
    block: &Block,
) -> Result<Option<RecordMeta>, OpenError>
    requires { IfTold (R.bytes reader.old) (λ told. footer ≤ length told) }
    ensures meta { IfTold (R.bytes reader.old) (λ told. Opens (λ meta. meta) result (meta_of told footer block.now)) }
    ensures placed { IfOk result (λ meta. OnSome meta (IsPlaced block.now)) }
    ensures cause { HasCause OpenError.ReadFault (R.faults reader.old) (R.faults reader.new) result }
    ensures bytes { R.bytes reader.new ≡ R.bytes reader.old }
{
    let Some((_, metadata)) = block_metadata(alloc, reader, footer, block)? else {
        return Ok(None);
    };
    match read_message(alloc, &metadata) {
        Ok(meta) => Ok(Some(meta)),
        Err(MetaError::Compressed) => Err(OpenError::Compressed),
        Err(MetaError::NoMemory) => Err(OpenError::NoMemory),
        Err(_) => Ok(None),
    }
}

/// What the block of a dictionary says, none where it is bad.
#[tactic(auto, unfolding(arrow_meta::specs::Head::dictionary_at, arrow_meta::specs::Head::dictionary_block, arrow_meta::specs::Head::block_body))]
pub(crate) fn text_block<R: Reader>(
    alloc: Global,
    reader: &mut R,
    footer: u64,
    block: &Block,
) -> Result<Option<TextBlock>, OpenError>
    requires { IfTold (R.bytes reader.old) (λ told. footer ≤ length told) }
    ensures block { IfTold (R.bytes reader.old) (λ told. Opens (option_map (block_seen told)) result (text_of told footer block.now)) }
    ensures within { IfOk result (λ found. IfSome found (IsWithin footer)) }
    ensures cause { HasCause OpenError.ReadFault (R.faults reader.old) (R.faults reader.new) result }
    ensures bytes { R.bytes reader.new ≡ R.bytes reader.old }
{
    let Some((place, metadata)) = block_metadata(alloc, reader, footer, block)? else {
        return Ok(None);
    };
    match read_dictionary(alloc, &metadata) {
        Ok((id, is_delta, values)) => Ok(Some(TextBlock {
            id,
            is_delta,
            values,
            place,
        })),
        Err(MetaError::Compressed) => Err(OpenError::Compressed),
        Err(MetaError::NoMemory) => Err(OpenError::NoMemory),
        Err(_) => Ok(None),
    }
}
