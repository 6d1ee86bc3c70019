// Pieces whose columns get the types of the operation: the kinds are the same, and nulls may stand elsewhere.
ghost use Rattle.std.specs.Prelude.{◌≡◌, ◌<◌, ◌++◌, Some, length, map, slice_get, All, IfOk, OnOk};
ghost use Rattle.sub_types.specs.Kind.{IsKind};
ghost use Rattle.batch.specs.BatchRows.{rows_of, types_of, stream_of_piece};
ghost use Rattle.batch.specs.Column.{column_values, column_type};
ghost use Rattle.set_rels.specs.Inputs.{kinds_of, HasKinds};

use batch::{Batch, Column, Piece};
use std::alloc::Global;
use sub_types::{NoMemory, Ty};

/// Adds pieces with columns of these types.
pub(crate) fn push_typed(
    alloc: Global,
    types: &[Ty],
    pieces: Vec<Piece>,
    into: &mut Vec<Piece>,
) -> Result<(), NoMemory>
    requires kinds { All (λ piece. HasKinds types.now piece.batch) pieces.items }
    requires typed { All (λ piece. types_of piece.batch ≡ types.now) into.old.items }
    ensures streams { OnOk result (map stream_of_piece into.new.items ≡ map stream_of_piece into.old.items ++ map stream_of_piece pieces.items) }
    ensures types { OnOk result (All (λ piece. types_of piece.batch ≡ types.now) into.new.items) }
{
    for piece in pieces {
        let Piece { batch, end } = piece;
        into.push(Piece {
            batch: typed_batch(alloc, types, batch)?,
            end,
        })?;
    }
    Ok(())
}

// A batch with columns of these types.
fn typed_batch(alloc: Global, types: &[Ty], batch: Batch) -> Result<Batch, NoMemory>
    requires { HasKinds types.now batch }
    ensures rows { IfOk result (λ typed. rows_of typed ≡ rows_of batch) }
    ensures types { IfOk result (λ typed. types_of typed ≡ types.now) }
{
    let Batch {
        number,
        rows,
        columns,
    } = batch;
    Ok(Batch {
        number,
        rows,
        columns: typed_columns(alloc, types, columns)?,
    })
}

// Columns of these types.
fn typed_columns(alloc: Global, types: &[Ty], columns: Vec<Column>) -> Result<Vec<Column>, NoMemory>
    requires { kinds_of (map column_type columns.items) ≡ kinds_of types.now }
    ensures values { IfOk result (λ typed. map column_values typed.items ≡ map column_values columns.items) }
    ensures types { IfOk result (λ typed. map column_type typed.items ≡ types.now) }
{
    let mut typed = Vec::with_capacity(alloc, columns.len())?;
    for column in columns {
        let ty = type_at(types, typed.len());
        typed.push(typed_column(ty, column))?;
    }
    Ok(typed)
}

fn type_at(types: &[Ty], at: usize) -> Ty
    requires { at < length types.now }
    ensures { slice_get types.now at ≡ Some result }
{
    types[at]
}

// A column of this type.
fn typed_column(ty: Ty, column: Column) -> Column
    requires { ty.kind ≡ column.ty.kind }
    ensures values { column_values result ≡ column_values column }
    ensures ty { result.ty ≡ ty }
{
    let Column { values, .. } = column;
    Column { ty, values }
}
