// The dictionaries of the columns of indices.
ghost use Rattle.std.specs.Prelude.{◌≡◌, ◌<◌, ◌^◌, length, map, IfOk};
ghost use Rattle.world.specs.Counts.{HasCause};
ghost use Rattle.arrow_meta.specs.Dictionary.{column_dictionaries, index_of};
ghost use Rattle.arrow_decode.specs.Seen.{dictionary_seen};
ghost use Rattle.arrow_read.specs.Told.{IfTold};
ghost use Rattle.arrow_read.specs.Sound.{AreIndexed};
ghost use Rattle.arrow_read.specs.Extents.{blocks_seen, AreWithin};

use crate::dictionary::dictionary;
use crate::metas::TextBlock;
use arrow_decode::DictColumn;
use arrow_meta::{FieldMeta, Layout, Shape};
use std::alloc::Global;
use world::{FolderError, Reader};

/// A dictionary for each column of indices, in their order.
pub(crate) fn dictionaries<R: Reader>(
    alloc: Global,
    reader: &mut R,
    columns: &[FieldMeta],
    blocks: &[Option<TextBlock>],
) -> Result<Vec<DictColumn>, FolderError>
    requires few { length columns.now < 2 ^ 32 }
    requires within { IfTold (R.bytes reader.old) (λ told. AreWithin (length told) blocks.now) }
    ensures dictionaries { IfOk result (λ found. IfTold (R.bytes reader.old) (λ told.
        map dictionary_seen found.items ≡ column_dictionaries (blocks_seen told blocks.now) columns.now)) }
    ensures indexed { IfOk result (λ found. AreIndexed columns.now found.items) }
    ensures cause { HasCause FolderError.Failed (R.faults reader.old) (R.faults reader.new) result }
    ensures bytes { R.bytes reader.new ≡ R.bytes reader.old }
{
    let mut found = Vec::new(alloc);
    for i in 0..columns.len() {
        let Some((id, wide)) = index(columns[i].shape) else {
            continue;
        };
        let values = dictionary(alloc, reader, blocks, id, wide)?;
        found.push(DictColumn {
            column: i as u32,
            values,
        })?;
    }
    Ok(found)
}

// The id of the dictionary that a column of indices names, and whether its offsets are wide.
fn index(shape: Shape) -> Option<(i64, bool)>
    ensures { result ≡ index_of shape }
{
    match shape {
        Shape::Known {
            kind: _,
            layout: Layout::Index {
                id,
                width: _,
                signed: _,
                wide,
            },
        } => Some((id, wide)),
        _ => None,
    }
}
