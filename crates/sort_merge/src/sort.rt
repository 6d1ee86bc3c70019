// The rows of a batch in order.
ghost use Rattle.std.specs.Prelude.{◌≡◌, ◌<◌, length, All, IfOk};
ghost use Rattle.sub_types.specs.Stream.{rows_alone};
ghost use Rattle.plan_pipes.specs.RowMeaning.{sorted_by};
ghost use Rattle.batch.specs.BatchRows.{rows_of, types_of};

use crate::order::ordered_places;
use batch::Batch;
use rel_specs::KeyOrder;
use std::alloc::Global;
use sub_types::NoMemory;

/// The rows of a batch in order of these columns. Rows with equal keys keep their order. The batch keeps its number.
pub fn sort_run(alloc: Global, keys: &[KeyOrder], batch: Batch) -> Result<Batch, NoMemory>
    requires columns { All (λ key. key.column < length batch.columns.items) keys.now }
    ensures rows { IfOk result (λ sorted. rows_alone (rows_of sorted) ≡ sorted_by keys.now (rows_alone (rows_of batch))) }
    ensures types { IfOk result (λ sorted. types_of sorted ≡ types_of batch) }
    ensures number { IfOk result (λ sorted. sorted.number ≡ batch.number) }
    ensures count { IfOk result (λ sorted. sorted.rows ≡ batch.rows) }
{
    let places = ordered_places(alloc, keys, &batch)?;
    batch.gather(alloc, &places)
}
