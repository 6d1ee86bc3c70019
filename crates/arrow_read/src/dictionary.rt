// The dictionary of one column.
ghost use Rattle.std.specs.Prelude.{◌≡◌, ◌||◌, length, IfOk};
ghost use Rattle.std.specs.Option.{ForSome};
ghost use Rattle.std.specs.Ordering.{int_eq};
ghost use Rattle.world.specs.Counts.{HasCause};
ghost use Rattle.arrow_meta.specs.Dictionary as spec;
ghost use Rattle.arrow_decode.specs.Dictionary.{AreTexts};
ghost use Rattle.arrow_read.specs.Told.{IfTold};
ghost use Rattle.arrow_read.specs.Extents.{block_seen, blocks_seen, IsWithin, AreWithin};

use crate::metas::TextBlock;
use crate::range::read_range;
use arrow_decode::decode_texts;
use col_text::{TextBuilder, TextCol};
use std::alloc::Global;
use world::{FolderError, Reader};

// The values of a dictionary are fewer.
const VALUES_LIMIT: usize = 1 << 31;

/// The texts of the dictionary of this id, or none where it is bad.
pub(crate) fn dictionary<R: Reader>(
    alloc: Global,
    reader: &mut R,
    blocks: &[Option<TextBlock>],
    id: i64,
    wide: bool,
) -> Result<Option<TextCol>, FolderError>
    requires { IfTold (R.bytes reader.old) (λ told. AreWithin (length told) blocks.now) }
    ensures texts { IfOk result (λ found. IfTold (R.bytes reader.old) (λ told. found ≡ spec.dictionary_texts id wide (blocks_seen told blocks.now))) }
    ensures utf8 { IfOk result (λ found. ForSome found AreTexts) }
    ensures cause { HasCause FolderError.Failed (R.faults reader.old) (R.faults reader.new) result }
    ensures bytes { R.bytes reader.new ≡ R.bytes reader.old }
{
    let mut texts = TextBuilder::new(alloc);
    let mut count = 0usize;
    let mut is_first = true;
    for block in blocks {
        let Some(block) = block else {
            return Ok(None);
        };
        if !is_of(block, id) {
            continue;
        }
        if !follows(block, is_first) {
            return Ok(None);
        }
        let Some(more) = block_texts(alloc, reader, block, wide)? else {
            return Ok(None);
        };
        if more.len() >= VALUES_LIMIT - count {
            return Ok(None);
        }
        count += more.len();
        texts.append(&more.view())?;
        is_first = false;
    }
    Ok(Some(texts.finish()))
}

// Whether a block is one of the dictionary of this id.
fn is_of(block: &TextBlock, id: i64) -> bool
    ensures { result ≡ int_eq block.now.id id }
{
    block.id == id
}

// Whether a block may follow those before it: it is the first, or adds to them.
fn follows(block: &TextBlock, is_first: bool) -> bool
    ensures { result ≡ (is_first || block.now.is_delta) }
{
    is_first || block.is_delta
}

// The texts of one block, or none where it is bad.
fn block_texts<R: Reader>(
    alloc: Global,
    reader: &mut R,
    block: &TextBlock,
    wide: bool,
) -> Result<Option<TextCol>, FolderError>
    requires { IfTold (R.bytes reader.old) (λ told. IsWithin (length told) block.now) }
    ensures texts { IfOk result (λ found. IfTold (R.bytes reader.old) (λ told. found ≡ spec.block_texts wide (block_seen told block.now))) }
    ensures utf8 { IfOk result (λ found. ForSome found AreTexts) }
    ensures cause { HasCause FolderError.Failed (R.faults reader.old) (R.faults reader.new) result }
    ensures bytes { R.bytes reader.new ≡ R.bytes reader.old }
{
    let place = block.place;
    let body = read_range(alloc, reader, place.offset + place.meta_len, place.body_len)?;
    Ok(decode_texts(alloc, wide, &block.values, &body)?)
}
