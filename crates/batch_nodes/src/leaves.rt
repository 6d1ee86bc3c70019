// A column of a batch at rows.
ghost use Rattle.std.specs.Prelude.{◌≡◌, ◌<◌, Some, vec_len, slice_get, All, IfOk};
ghost use Rattle.batch.specs.BatchRows.{column_of, types_of};
ghost use Rattle.sub_types.specs.Rows.{picked};
ghost use Rattle.sub_types.specs.declared.kind.Ty.{Ty};
ghost use Rattle.sub_types.specs.declared.value.Value.TheVariants.{Null};
ghost use Rattle.batch_nodes.specs.Found.{found_values, IsOfKind};

use crate::Found;
use batch::Batch;
use kernels::Rows;
use std::alloc::Global;
use sub_types::NoMemory;

/// The values of a column at these rows: the column is lent where they are all rows up to one.
pub fn column_at<'a>(
    alloc: Global,
    batch: &'a Batch,
    index: usize,
    rows: &Rows<'_>,
) -> Result<Found<'a>, NoMemory>
    requires there { index < vec_len batch.now.columns }
    requires exist { All (λ row. row < batch.now.rows) rows.now }
    ensures values { IfOk result (λ found. found_values found ≡ picked Null rows.now (column_of index batch.now)) }
    ensures kind { IfOk result (λ found. (ty : Ty) → slice_get (types_of batch.now) index ≡ Some ty → IsOfKind ty.kind found) }
{
    let column = &batch.columns[index];
    match rows.list() {
        Some(list) => Ok(Found::Made(column.gather(alloc, list)?)),
        None => Ok(Found::Whole(column, rows.len())),
    }
}
