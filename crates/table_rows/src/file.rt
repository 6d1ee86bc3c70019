// All blocks of a file, up to the first fault.
ghost use Rattle.std.specs.Prelude.{◌≡◌, ◌+◌, ◌≤◌, ◌++◌, Ok, None, IfOk, IfSome, vec_len};
ghost use Rattle.std.specs.List.{flat_map};
ghost use Rattle.world.specs.Counts.{HasCause};
ghost use Rattle.arrow_meta.specs.Head.{head_of};
ghost use Rattle.arrow_read.specs.Told.{IfTold};
ghost use Rattle.arrow_read.specs.Seen.{head_seen};
ghost use Rattle.batch.specs.BatchRows.{rows_of};
ghost use Rattle.table_rows.specs.Blocks.{HaveKinds, AddsBatches, IsFileFault, file_stream};

use crate::{TableRead, read_piece};
use arrow_read::FileHead;
use batch::{Batch, Piece};
use std::alloc::Global;
use sub_types::Fault;
use world::{FolderError, Reader};

/// The rows of the wanted columns of a file, up to the first fault: a batch for each block behind `batches`, also
/// where it has no rows, and the fault if there is one. `head` is that of the reader's file, and `file` its number
/// among the files of the table. After an error the batches of the blocks that were read stand behind `batches`.
pub fn read_file<R: Reader>(
    alloc: Global,
    reader: &mut R,
    head: &FileHead,
    file: u32,
    wanted: &[u32],
    read: &TableRead,
    batches: &mut Vec<Batch>,
) -> Result<Option<Fault>, FolderError>
    requires wanted { HaveKinds head.now.schema.columns wanted.now read.now.types.now }
    requires head { IfTold (R.bytes reader.old) (λ bytes. head_of bytes ≡ Ok (head_seen head.now)) }
    ensures rows { IfOk result (λ end. IfTold (R.bytes reader.old) (λ bytes.
        let stream = file_stream read.now.relation file read.now.types.now bytes (vec_len head.now.blocks) wanted.now
        in flat_map rows_of batches.new.items ≡ flat_map rows_of batches.old.items ++ stream.rows)) }
    ensures end { IfOk result (λ end. IfTold (R.bytes reader.old) (λ bytes.
        end ≡ (file_stream read.now.relation file read.now.types.now bytes (vec_len head.now.blocks) wanted.now).end)) }
    ensures faults { IfOk result (λ end. IfSome end (IsFileFault read.now.relation file (vec_len head.now.blocks))) }
    ensures batches { AddsBatches read.now.types.now batches.old.items batches.new.items }
    ensures count { IfOk result (λ end. end ≡ None → vec_len batches.new ≡ vec_len batches.old + vec_len head.now.blocks) }
    ensures at_most { vec_len batches.new ≤ vec_len batches.old + vec_len head.now.blocks }
    ensures cause { HasCause FolderError.Failed (R.faults reader.old) (R.faults reader.new) result }
    ensures bytes { R.bytes reader.new ≡ R.bytes reader.old }
{
    for block in 0..head.blocks.len() {
        let Piece { batch, end } = read_piece(
            alloc,
            reader,
            head,
            file,
            block as u32,
            wanted,
            read,
        )?;
        batches.push(batch)?;
        if end.is_some() {
            return Ok(end);
        }
    }
    Ok(None)
}
