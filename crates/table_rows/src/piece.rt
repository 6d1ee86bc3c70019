// One block of a file as a piece of a table's stream.
ghost use Rattle.std.specs.Prelude.{◌≡◌, ◌<◌, Ok, None, IfOk, IfSome, vec_len};
ghost use Rattle.std.specs.List.{All};
ghost use Rattle.sub_types.specs.Kind.{IsKind};
ghost use Rattle.sub_types.specs.Stream.{each};
ghost use Rattle.sub_types.specs.Value.{Fits};
ghost use Rattle.world.specs.Counts.{HasCause};
ghost use Rattle.arrow_meta.specs.Head.{head_of};
ghost use Rattle.arrow_meta.specs.Table as table;
ghost use Rattle.arrow_read.specs.Told.{IfTold};
ghost use Rattle.arrow_read.specs.Seen.{head_seen};
ghost use Rattle.batch.specs.BatchRows.{rows_of, types_of, stream_of_piece};
ghost use Rattle.table_rows.specs.Read.{read_row};
ghost use Rattle.table_rows.specs.Blocks.{HaveKinds, IsReadFault, block_stream};

use crate::check::check_batch;
use arrow_decode::{RawError, decode};
use arrow_read::{BlockError, FileHead, read_block};
use batch::{Piece, join_batches};
use std::alloc::Global;
use sub_types::{Fault, FaultKind, NoMemory, Ty};
use world::{FolderError, Reader};

/// What a table is read for: the number of the relation that reads it, and the types of its columns.
#[derive(Clone, Copy, Debug)]
pub struct TableRead<'a> {
    pub relation: u32,
    pub types: &'a [Ty],
}

/// The rows of the wanted columns in the block at a place of the footer, up to the first fault. `head` is that of the
/// reader's file, and `file` its number among the files of the table. A block that can't be read is a fault.
pub fn read_piece<R: Reader>(
    alloc: Global,
    reader: &mut R,
    head: &FileHead,
    file: u32,
    block: u32,
    wanted: &[u32],
    read: &TableRead,
) -> Result<Piece, FolderError>
    requires exists { block < vec_len head.now.blocks }
    requires wanted { HaveKinds head.now.schema.columns wanted.now read.now.types.now }
    requires head { IfTold (R.bytes reader.old) (λ bytes. head_of bytes ≡ Ok (head_seen head.now)) }
    ensures stream { IfOk result (λ piece. IfTold (R.bytes reader.old) (λ bytes. stream_of_piece piece
        ≡ each (read_row read.now.relation read.now.types.now)
        (block_stream read.now.relation file block (table.rows_of bytes block wanted.now)))) }
    ensures types { IfOk result (λ piece. types_of piece.batch ≡ read.now.types.now) }
    ensures fit { IfOk result (λ piece. All (Fits read.now.types.now) (rows_of piece.batch)) }
    ensures number { IfOk result (λ piece. piece.batch.number ≡ 0) }
    ensures faults { IfOk result (λ piece. IfSome piece.end (IsReadFault read.now.relation file block)) }
    ensures cause { HasCause FolderError.Failed (R.faults reader.old) (R.faults reader.new) result }
    ensures bytes { R.bytes reader.new ≡ R.bytes reader.old }
{
    let raw = match read_block(alloc, reader, head, block, wanted) {
        Ok(raw) => raw,
        Err(BlockError::BadBatch) => return Ok(bad_piece(alloc, file, block, read)?),
        Err(BlockError::ReadFault) => return Err(FolderError::Failed),
        Err(BlockError::NoMemory) => return Err(FolderError::NoMemory),
    };
    match decode(alloc, &head.dictionaries, &raw) {
        Ok(batch) => Ok(check_batch(alloc, read.relation, read.types, batch)?),
        Err(RawError::BadBatch) => Ok(bad_piece(alloc, file, block, read)?),
        Err(RawError::NoMemory) => Err(FolderError::NoMemory),
    }
}

// No rows, and the fault of a block that can't be read.
fn bad_piece(alloc: Global, file: u32, block: u32, read: &TableRead) -> Result<Piece, NoMemory>
    requires { All (λ ty. IsKind ty.kind) read.now.types.now }
    ensures stream { IfOk result (λ piece. stream_of_piece piece ≡ block_stream read.now.relation file block None) }
    ensures types { IfOk result (λ piece. types_of piece.batch ≡ read.now.types.now) }
    ensures number { IfOk result (λ piece. piece.batch.number ≡ 0) }
{
    let bad = Fault {
        relation: read.relation,
        kind: FaultKind::BadBatch { file, block },
    };
    Ok(Piece {
        batch: join_batches(alloc, read.types, &[])?,
        end: Some(bad),
    })
}
