// The rows of parts of batches as one batch.
ghost use Rattle.std.specs.Prelude.{◌≡◌, ◌+◌, ◌≤◌, ◌<◌, IfOk, Some, take, drop, length, slice_get};
ghost use Rattle.std.specs.List.{All, flat_map};
ghost use Rattle.sub_types.specs.Kind.{IsKind};
ghost use Rattle.batch.specs.BatchRows.{types_of, rows_of, column_of};
ghost use Rattle.batch.specs.Column.{column_values};
ghost use Rattle.arrow_write.specs.Cut.{IsPartOf, AreRows, part_of, rows_in, place_of_parts};

use crate::cursor::Part;
use batch::{Batch, Column, ColumnBuilder};
use std::alloc::Global;
use sub_types::{NoMemory, Ty};

// The batch of the parts, which are `count` rows of all batches that follow one another.
pub(crate) fn batch_of_parts(
    alloc: Global,
    types: &[Ty],
    batches: &[Batch],
    parts: &[Part],
    count: u64,
) -> Result<Batch, NoMemory>
    requires kinds { All (λ ty. IsKind ty.kind) types.now }
    requires alike { All (λ batch. types_of batch ≡ types.now) batches.now }
    requires lie { All (IsPartOf batches.now) parts.now }
    requires rows { AreRows batches.now (place_of_parts batches.now parts.now) count parts.now }
    requires enough { place_of_parts batches.now parts.now + count ≤ rows_in batches.now }
    ensures rows { IfOk result (λ batch. rows_of batch ≡ take count (drop (place_of_parts batches.now parts.now) (flat_map rows_of batches.now))) }
    ensures types { IfOk result (λ batch. types_of batch ≡ types.now) }
{
    let mut columns = Vec::new(alloc);
    for index in 0..types.len() {
        columns.push(column_of_parts(alloc, types, batches, parts, index)?)?;
    }
    Ok(Batch {
        number: 0,
        rows: count,
        columns,
    })
}

// The column at a place, of all parts.
fn column_of_parts(
    alloc: Global,
    types: &[Ty],
    batches: &[Batch],
    parts: &[Part],
    index: usize,
) -> Result<Column, NoMemory>
    requires kinds { All (λ ty. IsKind ty.kind) types.now }
    requires alike { All (λ batch. types_of batch ≡ types.now) batches.now }
    requires lie { All (IsPartOf batches.now) parts.now }
    requires exists { index < length types.now }
    ensures values { IfOk result (λ column. column_values column ≡ flat_map (part_of (column_of index) batches.now) parts.now) }
    ensures ty { IfOk result (λ column. slice_get types.now index ≡ Some column.ty) }
{
    let mut builder = ColumnBuilder::new(alloc, types[index]);
    for part in parts {
        let batch = &batches[part.batch];
        builder.append(&batch.columns[index], part.from as usize, part.to as usize)?;
    }
    Ok(builder.finish())
}
