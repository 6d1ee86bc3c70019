// Batches one behind the other.
ghost use Rattle.std.specs.Prelude.{◌≡◌, ◌^◌, ◌<◌, ℕ, Some, length, slice_get, All, IfOk};
ghost use Rattle.std.specs.List.{flat_map, sum_by};
ghost use Rattle.sub_types.specs.Kind.{IsKind};
ghost use Rattle.batch.specs.BatchRows.{column_of, rows_of, types_of};
ghost use Rattle.batch.specs.Column.{column_values};

use crate::{Batch, Column, ColumnBuilder};
use std::alloc::Global;
use sub_types::{NoMemory, Ty};

/// The rows of the parts, one part behind the other, as a batch of these types, whose columns are made with room for all rows.
/// Its number is 0.
pub fn join_batches(alloc: Global, types: &[Ty], parts: &[Batch]) -> Result<Batch, NoMemory>
    requires kinds { All (λ ty. IsKind ty.kind) types.now }
    requires alike { All (λ part. types_of part ≡ types.now) parts.now }
    requires few { sum_by (λ part. part.rows) parts.now < 2 ^ 31 }
    ensures rows { IfOk result (λ batch. rows_of batch ≡ flat_map rows_of parts.now) }
    ensures types { IfOk result (λ batch. types_of batch ≡ types.now) }
    ensures number { IfOk result (λ batch. batch.number ≡ 0) }
    ensures count { IfOk result (λ batch. batch.rows ≡ sum_by (λ part. part.rows) parts.now) }
{
    let rows = total_rows(parts);
    let mut columns = Vec::new(alloc);
    for index in 0..types.len() {
        columns.push(join_column(alloc, types, parts, index, rows as usize)?)?;
    }
    Ok(Batch {
        number: 0,
        rows,
        columns,
    })
}

fn total_rows(parts: &[Batch]) -> u64
    requires { sum_by (λ part. part.rows) parts.now < 2 ^ 31 }
    ensures { result ≡ sum_by (λ part. part.rows) parts.now }
{
    let mut rows = 0;
    for batch in parts {
        rows += batch.rows;
    }
    rows
}

// The column at a place, of all parts, with room for so many rows.
fn join_column(
    alloc: Global,
    types: &[Ty],
    parts: &[Batch],
    index: usize,
    rows: usize,
) -> Result<Column, NoMemory>
    requires kinds { All (λ ty. IsKind ty.kind) types.now }
    requires alike { All (λ part. types_of part ≡ types.now) parts.now }
    requires exists { index < length types.now }
    ensures values { IfOk result (λ column. column_values column ≡ flat_map (column_of index) parts.now) }
    ensures ty { IfOk result (λ column. slice_get types.now index ≡ Some column.ty) }
{
    let mut builder = ColumnBuilder::with_capacity(alloc, types[index], rows)?;
    for part in parts {
        let column = &part.columns[index];
        builder.append(column, 0, column.values.len())?;
    }
    Ok(builder.finish())
}
