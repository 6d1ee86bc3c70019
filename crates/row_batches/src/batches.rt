// Rows as batches of 1,024.
ghost use Rattle.std.specs.Prelude.{◌≡◌, ◌<◌, map, length, IfOk};
ghost use Rattle.std.specs.List.{All, flat_map};
ghost use Rattle.sub_types.specs.Kind.{IsKind};
ghost use Rattle.sub_types.specs.Value.{Fits};
ghost use Rattle.batch.specs.BatchRows.{rows_of, types_of};
ghost use Rattle.batch.specs.Column.{column_values};
ghost use Rattle.row_batches.specs.Parts.{in_parts, value_in, HoldsAt};

use batch::{Batch, Column, ColumnBuilder};
use plan_leaves::Items;
use std::alloc::Global;
use sub_types::{NoMemory, Ty, Value};

/// The rows of a batch, but for the last.
const BATCH_ROWS: usize = 1_024;

/// The rows as batches of these types: 1,024 rows each, the last shorter, none for no rows. Each row fits the types.
pub fn rows_to_batches(
    alloc: Global,
    types: &[Ty],
    rows: &[Items<Value>],
) -> Result<Vec<Batch>, NoMemory>
    requires kinds { All (λ ty. IsKind ty.kind) types.now }
    requires fit { All (Fits types.now) rows.now }
    ensures rows { IfOk result (λ batches. flat_map rows_of batches.items ≡ rows.now) }
    ensures parts { IfOk result (λ batches. map rows_of batches.items ≡ in_parts rows.now) }
    ensures types { IfOk result (λ batches. All (λ batch. types_of batch ≡ types.now) batches.items) }
{
    let mut batches = Vec::new(alloc);
    for number in 0..(rows.len() + 1023) / BATCH_ROWS {
        let from = number * BATCH_ROWS;
        let to = rows.len().min(from + BATCH_ROWS);
        batches.push(rows_to_batch(alloc, types, &rows[from..to], number as u64)?)?;
    }
    Ok(batches)
}

/// The rows as one batch of these types, with this number. Each row fits the types.
pub fn rows_to_batch(
    alloc: Global,
    types: &[Ty],
    rows: &[Items<Value>],
    number: u64,
) -> Result<Batch, NoMemory>
    requires kinds { All (λ ty. IsKind ty.kind) types.now }
    requires fit { All (Fits types.now) rows.now }
    ensures rows { IfOk result (λ batch. rows_of batch ≡ rows.now) }
    ensures types { IfOk result (λ batch. types_of batch ≡ types.now) }
    ensures number { IfOk result (λ batch. batch.number ≡ number) }
{
    let mut columns = Vec::new(alloc);
    for index in 0..types.len() {
        columns.push(column_at(alloc, types[index], rows, index)?)?;
    }
    Ok(Batch {
        number,
        rows: rows.len() as u64,
        columns,
    })
}

/// The column of the values at a place of each row.
fn column_at(alloc: Global, ty: Ty, rows: &[Items<Value>], index: usize) -> Result<Column, NoMemory>
    requires kind { IsKind ty.kind }
    requires hold { All (HoldsAt index ty.kind) rows.now }
    ensures values { IfOk result (λ column. column_values column ≡ map (value_in index) rows.now) }
    ensures ty { IfOk result (λ column. column.ty ≡ ty) }
{
    let mut builder = ColumnBuilder::new(alloc, ty);
    for row in rows {
        builder.push(&row.as_slice()[index])?;
    }
    Ok(builder.finish())
}
