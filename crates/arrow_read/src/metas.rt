// What the blocks of a file say.
ghost use Rattle.std.specs.Prelude.{◌≡◌, ◌≤◌, length, vec_len, IfOk};
ghost use Rattle.world.specs.Counts.{HasCause};
ghost use Rattle.arrow_read.specs.Told.{IfTold};
ghost use Rattle.arrow_read.specs.Refused.{Opens};
ghost use Rattle.arrow_read.specs.Sound.{ArePlaced};
ghost use Rattle.arrow_read.specs.Extents.{metas_seen, blocks_seen, AreWithin};
ghost use Rattle.arrow_read.specs.Metas.{metas_of, texts_of};

use crate::OpenError;
use crate::extent::Extent;
use crate::metadata::{record_meta, text_block};
use arrow_meta::{Block, RecordMeta};
use std::alloc::Global;
use world::Reader;

// A good block of a dictionary: its id, whether it adds to those before it, its values, and where it stands.
#[derive(Debug, Drop)]
pub(crate) struct TextBlock {
    pub(crate) id: i64,
    pub(crate) is_delta: bool,
    pub(crate) values: RecordMeta,
    pub(crate) place: Extent,
}

/// The metadata of each block of a record batch, none for a bad one.
pub(crate) fn record_metas<R: Reader>(
    alloc: Global,
    reader: &mut R,
    footer: u64,
    blocks: &[Block],
) -> Result<Vec<Option<RecordMeta>>, OpenError>
    requires { IfTold (R.bytes reader.old) (λ told. footer ≤ length told) }
    ensures metas { IfTold (R.bytes reader.old) (λ told. Opens metas_seen result (metas_of told footer blocks.now)) }
    ensures count { IfOk result (λ metas. vec_len metas ≡ length blocks.now) }
    ensures placed { IfOk result (λ metas. ArePlaced blocks.now metas.items) }
    ensures cause { HasCause OpenError.ReadFault (R.faults reader.old) (R.faults reader.new) result }
    ensures bytes { R.bytes reader.new ≡ R.bytes reader.old }
{
    let mut metas = Vec::new(alloc);
    for block in blocks {
        metas.push(record_meta(alloc, reader, footer, block)?)?;
    }
    Ok(metas)
}

/// The blocks of dictionaries, none for a bad one.
pub(crate) fn text_blocks<R: Reader>(
    alloc: Global,
    reader: &mut R,
    footer: u64,
    blocks: &[Block],
) -> Result<Vec<Option<TextBlock>>, OpenError>
    requires { IfTold (R.bytes reader.old) (λ told. footer ≤ length told) }
    ensures blocks { IfTold (R.bytes reader.old) (λ told. Opens (λ found. blocks_seen told found.items) result (texts_of told footer blocks.now)) }
    ensures within { IfOk result (λ found. AreWithin footer found.items) }
    ensures cause { HasCause OpenError.ReadFault (R.faults reader.old) (R.faults reader.new) result }
    ensures bytes { R.bytes reader.new ≡ R.bytes reader.old }
{
    let mut texts = Vec::new(alloc);
    for block in blocks {
        texts.push(text_block(alloc, reader, footer, block)?)?;
    }
    Ok(texts)
}
