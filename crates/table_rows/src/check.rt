// A batch whose rows are tested.
ghost use Rattle.std.specs.Prelude.{◌≡◌, IfOk};
ghost use Rattle.std.specs.List.{All};
ghost use Rattle.sub_types.specs.Stream.{each, rows_alone};
ghost use Rattle.sub_types.specs.Value.{Fits};
ghost use Rattle.batch.specs.BatchRows.{rows_of, types_of, stream_of_piece};
ghost use Rattle.table_rows.specs.Read.{kinds_of, read_row};

use crate::columns::first_fault;
use crate::retype::retyped;
use batch::{Batch, Piece};
use std::alloc::Global;
use sub_types::{Fault, NoMemory, Ty};

/// The rows of a batch up to the first that doesn't fit the types, with its fault at the relation of this number.
/// The batch has the kinds of these types. It is copied only where a row has a fault.
pub fn check_batch(
    alloc: Global,
    relation: u32,
    types: &[Ty],
    batch: Batch,
) -> Result<Piece, NoMemory>
    requires { kinds_of (types_of batch) ≡ kinds_of types.now }
    ensures stream { IfOk result (λ piece. stream_of_piece piece ≡ each (read_row relation types.now) (rows_alone (rows_of batch))) }
    ensures types { IfOk result (λ piece. types_of piece.batch ≡ types.now) }
    ensures fit { IfOk result (λ piece. All (Fits types.now) (rows_of piece.batch)) }
    ensures number { IfOk result (λ piece. piece.batch.number ≡ batch.number) }
{
    let Some(found) = first_fault(types, &batch) else {
        return Ok(Piece {
            batch: retyped(types, batch),
            end: None,
        });
    };
    let before = batch.slice(alloc, 0, found.row as u64)?;
    Ok(Piece {
        batch: retyped(types, before),
        end: Some(Fault {
            relation,
            kind: found.kind,
        }),
    })
}
