// The rows of a block.
ghost use Rattle.std.specs.Prelude.{◌≡◌, ◌<◌, None, IfOk, map, vec_len};
ghost use Rattle.arrow_decode.specs.Seen.{wanted_type};
ghost use Rattle.batch.specs.BatchRows.{stream_of_piece};
ghost use Rattle.table_rows.specs.Blocks.{HoldsTypes};
ghost use Rattle.table_rows.specs.Read.{kinds_of};
ghost use Rattle.block_rows.specs.Made.{IsRowsAt, block_at, is_made, rows_with};

use crate::kinds::have_kinds;
use crate::table::TableRows;
use arrow_decode::{Raw, RawError, decode};
use batch::{Batch, Piece, join_batches};
use block_source::BlockPlace;
use round_end::Outcome;
use std::alloc::Global;
use sub_types::{Fault, FaultKind, NoMemory};
use table_rows::check_batch;

/// The rows of a block that was read, each tested, or no rows and a fault where it can't be decoded. A block without the kinds of the
/// table's types, which no ready file has, is a failed read.
pub(crate) fn whole_rows(
    alloc: Global,
    rows: &TableRows,
    place: BlockPlace,
    raw: &Raw,
) -> Result<Outcome<Batch>, NoMemory>
    requires file { place.file < vec_len rows.now.table.now.files }
    ensures { kinds_of (map wanted_type raw.now.columns.items) ≡ kinds_of rows.now.types.now
        → IfOk result (IsRowsAt rows.now place (block_at rows.now place (rows_with rows.now place raw.now))) }
{
    let file = &rows.table.files[place.file as usize];
    match decode(alloc, &file.head.dictionaries, raw) {
        Ok(batch) => {
            if !have_kinds(&batch.columns, rows.types) {
                return Ok(Outcome::ReadFault);
            }
            let piece = check_batch(alloc, rows.relation, rows.types, batch)?;
            Ok(outcome_of(piece))
        }
        Err(RawError::BadBatch) => {
            let made = bad_rows(alloc, rows, place)?;
            Ok(made)
        }
        Err(RawError::NoMemory) => Err(NoMemory),
    }
}

/// No rows, and the fault of a block that can't be read.
pub(crate) fn bad_rows(
    alloc: Global,
    rows: &TableRows,
    place: BlockPlace,
) -> Result<Outcome<Batch>, NoMemory>
    requires file { place.file < vec_len rows.now.table.now.files }
    ensures { IfOk result (IsRowsAt rows.now place (block_at rows.now place None)) }
{
    let bad = Fault {
        relation: rows.relation,
        kind: FaultKind::BadBatch {
            file: rows.numbers[place.file as usize],
            block: place.block,
        },
    };
    let batch = join_batches(alloc, rows.types, &[])?;
    Ok(Outcome::Ended(batch, bad))
}

fn outcome_of(piece: Piece) -> Outcome<Batch>
    ensures { result ≡ is_made piece }
{
    let Piece { batch, end } = piece;
    match end {
        None => Outcome::Made(batch),
        Some(fault) => Outcome::Ended(batch, fault),
    }
}
