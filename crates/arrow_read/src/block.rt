// One record batch, read.
ghost use Rattle.std.specs.Prelude.{◌≡◌, ◌≢◌, ◌↔◌, ◌+◌, ◌<◌, ◌≤◌, Ok, Err, Some, None, IsSome, IfOk, length, map, take, drop, slice_get, vec_len};
ghost use Rattle.std.specs.Option.{option_map};
ghost use Rattle.std.specs.List.{All};
ghost use Rattle.world.specs.Counts.{HasCause};
ghost use Rattle.arrow_meta.specs.Head.{head_of};
ghost use Rattle.arrow_meta.specs.Batch.{buffers_of, rows_in};
ghost use Rattle.arrow_meta.specs.Table.{shapes_of, rows_of};
ghost use Rattle.arrow_decode.specs.Seen.{wanted_with};
ghost use Rattle.arrow_read.specs.Told.{IfTold};
ghost use Rattle.arrow_read.specs.Known.{known_column};
ghost use Rattle.arrow_read.specs.Seen.{head_seen};
ghost use Rattle.arrow_read.specs.Sound.{IsPlaced};
ghost use Rattle.arrow_read.specs.BlockReads.{body_start, body_len, reads_block};

use crate::copies::meta_copy;
use crate::range::read_range;
use crate::{BlockError, FileHead};
use arrow_decode::Raw;
use arrow_meta::{Block, FieldMeta, Layout, Shape};
use std::alloc::Global;
use sub_types::{Kind, NoMemory};
use world::Reader;

/// The record batch at a place of the footer, for the wanted columns, by one read of its body, or none where
/// that is empty (Arrow columnar format, "RecordBatch message"). `head` is that of the reader's file.
#[tactic(auto, unfolding(crate::specs::BlockReads::reads_block))]
pub fn read_block<R: Reader>(
    alloc: Global,
    r: &mut R,
    head: &FileHead,
    block: u32,
    wanted: &[u32],
) -> Result<Raw, BlockError>
    requires exists { block < vec_len head.now.blocks }
    requires wanted { All (λ column. IsSome (known_column head.now.schema.columns column)) wanted.now }
    requires head { IfTold (R.bytes r.old) (λ bytes. head_of bytes ≡ Ok (head_seen head.now)) }
    ensures meta { IfOk result (λ raw. slice_get head.now.metas.items block ≡ Some (Some raw.meta)) }
    ensures columns { IfOk result (λ raw. map Some raw.columns.items ≡ map (known_column head.now.schema.columns) wanted.now) }
    ensures shapes { IfOk result (λ raw. raw.shapes.items ≡ shapes_of head.now.schema.columns) }
    ensures body { IfOk result (λ raw. Some (vec_len raw.body) ≡ option_map body_len (slice_get head.now.blocks.items block)) }
    ensures rows { IfOk result (λ raw. IfTold (R.bytes r.old) (λ bytes. rows_of bytes block wanted.now
        ≡ rows_in raw.shapes.items raw.meta raw.body.items (map (wanted_with head.now.dictionaries.items) raw.columns.items))) }
    ensures bad { (result ≡ Err BlockError.BadBatch) ↔ (slice_get head.now.metas.items block ≡ Some None) }
    ensures bad_rows { result ≡ Err BlockError.BadBatch → IfTold (R.bytes r.old) (λ bytes. rows_of bytes block wanted.now ≡ None) }
    ensures reads { R.reads r.new ≡ reads_block result (R.reads r.old) (slice_get head.now.blocks.items block) }
    ensures cause { HasCause BlockError.ReadFault (R.faults r.old) (R.faults r.new) result }
    ensures bytes { R.bytes r.new ≡ R.bytes r.old }
{
    let index = block as usize;
    let Some(meta) = &head.metas[index] else {
        return Err(BlockError::BadBatch);
    };
    let meta = meta_copy(alloc, meta)?;
    let columns = wanted_columns(alloc, head.schema.columns.fields(), wanted)?;
    let shapes = shapes(alloc, head.schema.columns.fields())?;
    let body = read_body(alloc, r, &head.blocks[index])?;
    Ok(Raw {
        meta,
        columns,
        shapes,
        body,
    })
}

// The wanted columns, in their order, with their kinds and layouts.
fn wanted_columns(
    alloc: Global,
    columns: &[FieldMeta],
    wanted: &[u32],
) -> Result<Vec<(u32, Kind, Layout)>, NoMemory>
    requires { All (λ column. IsSome (known_column columns.now column)) wanted.now }
    ensures { IfOk result (λ found. map Some found.items ≡ map (known_column columns.now) wanted.now) }
{
    let mut found = Vec::new(alloc);
    for column in wanted {
        let Some(one) = wanted_column(columns, *column) else {
            continue;
        };
        found.push(one)?;
    }
    Ok(found)
}

// A column with its kind and layout, if it exists and can be read.
fn wanted_column(columns: &[FieldMeta], column: u32) -> Option<(u32, Kind, Layout)>
    ensures { result ≡ known_column columns.now column }
{
    let field = columns.get(column as usize)?;
    match field.shape {
        Shape::Known { kind, layout } => Some((column, kind, layout)),
        Shape::Skip { buffers: _ } => None,
    }
}

// How many buffers each column has.
fn shapes(alloc: Global, columns: &[FieldMeta]) -> Result<Vec<u8>, NoMemory>
    ensures { IfOk result (λ shapes. shapes.items ≡ shapes_of columns.now) }
{
    let mut shapes = Vec::new(alloc);
    for field in columns {
        shapes.push(buffer_count(field.shape))?;
    }
    Ok(shapes)
}

fn buffer_count(shape: Shape) -> u8
    ensures { result ≡ buffers_of shape }
{
    match shape {
        Shape::Skip { buffers } => buffers,
        Shape::Known {
            kind: _,
            layout: Layout::Index { .. },
        } => 2,
        Shape::Known {
            kind: Kind::Text | Kind::Binary,
            layout: _,
        } => 3,
        Shape::Known { kind: _, layout: _ } => 2,
    }
}

// The body of a block, by one read unless it is empty.
#[tactic(auto, unfolding(crate::specs::BlockReads::reads_block, world::specs::Reads::reads_after))]
fn read_body<R: Reader>(alloc: Global, r: &mut R, block: &Block) -> Result<Vec<u8>, BlockError>
    requires placed { IsPlaced block.now }
    requires within { IfTold (R.bytes r.old) (λ told. body_start block.now + body_len block.now ≤ length told) }
    ensures body { IfOk result (λ body. IfTold (R.bytes r.old) (λ told. body.items ≡ take (body_len block.now) (drop (body_start block.now) told))) }
    ensures len { IfOk result (λ body. vec_len body ≡ body_len block.now) }
    ensures good { result ≢ Err BlockError.BadBatch }
    ensures reads { R.reads r.new ≡ reads_block result (R.reads r.old) (Some block.now) }
    ensures cause { HasCause BlockError.ReadFault (R.faults r.old) (R.faults r.new) result }
    ensures bytes { R.bytes r.new ≡ R.bytes r.old }
{
    let len = block.body_len.unsigned_abs();
    if len == 0 {
        return Ok(Vec::new(alloc));
    }
    let start = block.offset.unsigned_abs() + u64::from(block.meta_len.unsigned_abs());
    Ok(read_range(alloc, r, start, len)?)
}
