// A file, opened.
ghost use Rattle.std.specs.Prelude.{◌≡◌};
ghost use Rattle.world.specs.Counts.{HasCause};
ghost use Rattle.arrow_meta.specs.Head.{head_of};
ghost use Rattle.arrow_read.specs.Told.{IfTold};
ghost use Rattle.arrow_read.specs.Refused.{Opens};
ghost use Rattle.arrow_read.specs.Seen.{head_seen};

use crate::dictionaries::dictionaries;
use crate::ends::footer_start;
use crate::footer::footer;
use crate::metas::{record_metas, text_blocks};
use crate::{FileHead, OpenError};
use std::alloc::Global;
use world::Reader;

/// The head of an Arrow file: it reads both ends, the footer, the metadata of each block, and the bodies of
/// the dictionaries that columns of indices name (Arrow columnar format, "IPC File Format"). No memory is
/// taken for a size that the file states before it is known to lie within the file.
#[tactic(auto, unfolding(arrow_meta::specs::Head::head_of))]
pub fn open_file<R: Reader>(alloc: Global, r: &mut R) -> Result<FileHead, OpenError>
    ensures head { IfTold (R.bytes r.old) (λ bytes. Opens head_seen result (head_of bytes)) }
    ensures cause { HasCause OpenError.ReadFault (R.faults r.old) (R.faults r.new) result }
    ensures bytes { R.bytes r.new ≡ R.bytes r.old }
{
    let len = r.len()?;
    let start = footer_start(alloc, r, len)?;
    let (schema, text_places, blocks) = footer(alloc, r, start, len)?;
    let metas = record_metas(alloc, r, start, &blocks)?;
    let texts = text_blocks(alloc, r, start, &text_places)?;
    let dictionaries = dictionaries(alloc, r, schema.columns.fields(), &texts)?;
    Ok(FileHead {
        schema,
        blocks,
        metas,
        dictionaries,
    })
}
