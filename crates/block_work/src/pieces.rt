// The rows of a block as a piece.
ghost use Rattle.std.specs.Prelude.{◌≡◌, [], IfOk, MatchOption, None, Some, map, slice_get};
ghost use Rattle.batch.specs.BatchRows.{rows_of, stream_of_piece, types_of};
ghost use Rattle.arrow_decode.specs.Seen.{wanted_type};
ghost use Rattle.table_rows.specs.Read.{kinds_of};
ghost use Rattle.block_source.specs.Seen.{IsPlaceIn};
ghost use Rattle.block_work.specs.Blocks.{block_at, rows_with};
ghost use Rattle.block_work.specs.Reads.{StartsWithRead};

use crate::kinds::have_kinds;
use crate::reading::TableSteps;
use arrow_decode::{Raw, RawError, decode};
use batch::{Batch, Piece, join_batches};
use block_source::{BlockFile, BlockPlace};
use pipe_work::PipeSteps;
use std::alloc::Global;
use sub_types::{Fault, FaultKind, NoMemory};
use table_rows::retyped;

/// The rows of a block that was read, or no rows and a fault where it can't be decoded. None is where it hasn't the kinds of the input's
/// columns.
pub(crate) fn whole_piece(
    alloc: Global,
    steps: &TableSteps,
    place: BlockPlace,
    raw: &Raw,
) -> Result<Option<Piece>, NoMemory>
    requires place { IsPlaceIn steps.now.table.now.files.items place }
    ensures { IfOk result (λ found. MatchOption found (kinds_of (map wanted_type raw.now.columns.items) ≡ kinds_of steps.now.pipe.now.types → ⊥)
        (λ piece. (types_of piece.batch ≡ steps.now.pipe.now.types) × (stream_of_piece piece ≡ block_at steps.now place (rows_with steps.now place raw.now)))) }
{
    let file = file_at(&steps.table.files, place);
    match decode(alloc, &file.head.dictionaries, raw) {
        Ok(batch) => {
            let piece = typed_piece(steps.pipe, batch);
            Ok(piece)
        }
        Err(RawError::BadBatch) => {
            let piece = bad_piece(alloc, steps, place)?;
            Ok(Some(piece))
        }
        Err(RawError::NoMemory) => Err(NoMemory),
    }
}

// The file of a place.
fn file_at(files: &[BlockFile], place: BlockPlace) -> &BlockFile
    requires { IsPlaceIn files.now place }
    ensures { slice_get files.now place.file ≡ Some result.now }
{
    &files[place.file as usize]
}

// A batch as a piece of the input's types, where it has their kinds.
fn typed_piece(pipe: &PipeSteps, batch: Batch) -> Option<Piece>
    ensures { MatchOption result (kinds_of (types_of batch) ≡ kinds_of pipe.now.types → ⊥)
        (λ piece. (types_of piece.batch ≡ pipe.now.types) × (rows_of piece.batch ≡ rows_of batch) × (piece.end ≡ None)) }
{
    if !have_kinds(&batch.columns, pipe.types) {
        return None;
    }
    Some(Piece {
        batch: retyped(pipe.types, batch),
        end: None,
    })
}

/// No rows, and the fault of a block that can't be read.
pub(crate) fn bad_piece(
    alloc: Global,
    steps: &TableSteps,
    place: BlockPlace,
) -> Result<Piece, NoMemory>
    requires place { IsPlaceIn steps.now.table.now.files.items place }
    ensures types { IfOk result (λ piece. types_of piece.batch ≡ steps.now.pipe.now.types) }
    ensures stream { IfOk result (λ piece. stream_of_piece piece ≡ block_at steps.now place None) }
{
    let bad = Fault {
        relation: steps.relation,
        kind: FaultKind::BadBatch {
            file: steps.numbers[place.file as usize],
            block: place.block,
        },
    };
    let batch = no_rows(alloc, steps.pipe)?;
    Ok(Piece {
        batch,
        end: Some(bad),
    })
}

// No rows of the types of the input's columns.
fn no_rows(alloc: Global, pipe: &PipeSteps) -> Result<Batch, NoMemory>
    requires { StartsWithRead pipe.now.steps }
    ensures types { IfOk result (λ batch. types_of batch ≡ pipe.now.types) }
    ensures rows { IfOk result (λ batch. rows_of batch ≡ []) }
{
    let batch = join_batches(alloc, pipe.types, &[])?;
    Ok(batch)
}
