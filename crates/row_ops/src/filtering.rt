// The rows at which a condition is true.
ghost use Rattle.std.specs.Prelude.{◌≡◌, ◌<◌, [], All, IfOk, length};
ghost use Rattle.std.specs.List.{range_with_len};
ghost use Rattle.sub_types.specs.Rows.{picked};
ghost use Rattle.sub_types.specs.Value.{Fits};
ghost use Rattle.sub_types.specs.declared.kind.Kind.TheVariants.{Bool};
ghost use Rattle.plan_typed.specs.Types.{ty_of};
ghost use Rattle.well_typed.specs.ExprTyped.{IsTypedOver};
ghost use Rattle.plan_denote.specs.Eval.{eval};
ghost use Rattle.plan_denote.specs.Filter.{filtered};
ghost use Rattle.batch.specs.BatchRows.{rows_of, stream_of_piece, types_of};
ghost use Rattle.batch.specs.ColumnValues.{values_of};
ghost use Rattle.batch_nodes.specs.Evaluated.{evaluated};
ghost use Rattle.row_ops.specs.Stepped.{chosen_by};

use crate::stops::end_after;
use batch::{Batch, Column, ColumnData, Piece};
use eval_batch::eval_rows;
use kernels::{Rows, Stop, select};
use plan_typed::Expr;
use std::alloc::Global;
use sub_types::NoMemory;

/// The rows at which the condition is true, up to the first at which it has a fault: the fault is that of the relation of this
/// number. A row at which it is false or null isn't kept.
pub fn filter(
    alloc: Global,
    condition: &Expr,
    relation: u32,
    input: Piece,
) -> Result<Piece, NoMemory>
    requires typed { IsTypedOver (types_of input.batch) condition.now }
    requires is_test { (ty_of condition.now).kind ≡ Bool }
    requires fit { All (Fits (types_of input.batch)) (rows_of input.batch) }
    ensures stream { IfOk result (λ kept. stream_of_piece kept ≡ filtered relation (eval condition.now) (stream_of_piece input)) }
    ensures types { IfOk result (λ kept. types_of kept.batch ≡ types_of input.batch) }
    ensures number { IfOk result (λ kept. kept.batch.number ≡ input.batch.number) }
{
    let Piece { batch, end } = input;
    let (places, stop) = places_of(alloc, condition, &batch)?;
    let batch = at_places(alloc, batch, &places)?;
    Ok(Piece {
        batch,
        end: end_after(relation, stop, end),
    })
}

// The places of the rows at which the condition is true, up to its first fault.
fn places_of(alloc: Global, condition: &Expr, batch: &Batch) -> Result<(Vec<u64>, Stop), NoMemory>
    requires typed { IsTypedOver (types_of batch.now) condition.now }
    requires is_test { (ty_of condition.now).kind ≡ Bool }
    requires fit { All (Fits (types_of batch.now)) (rows_of batch.now) }
    ensures places { IfOk result (λ out. out.0.items ≡ chosen_by (range_with_len 0 batch.now.rows) (evaluated condition.now batch.now (range_with_len 0 batch.now.rows)).values) }
    ensures stop { IfOk result (λ out. out.1 ≡ (evaluated condition.now batch.now (range_with_len 0 batch.now.rows)).stop) }
{
    let rows = Rows::all(batch.rows as usize);
    let (found, stop) = eval_rows(alloc, condition, batch, &rows)?;
    let tests = found.into_column(alloc, condition.ty())?;
    Ok((true_places(alloc, &tests)?, stop))
}

// The places of the values that are true.
fn true_places(alloc: Global, tests: &Column) -> Result<Vec<u64>, NoMemory>
    requires { tests.now.ty.kind ≡ Bool }
    ensures { IfOk result (λ places. places.items ≡ chosen_by (range_with_len 0 (length (values_of tests.now.values))) (values_of tests.now.values)) }
{
    match &tests.values {
        ColumnData::Bool(tests) => Ok(select(alloc, tests)?.rows),
        _ => Ok(Vec::new(alloc)),
    }
}

// The rows at these places; all of them aren't copied.
fn at_places(alloc: Global, batch: Batch, places: &[u64]) -> Result<Batch, NoMemory>
    requires exist { All (λ place. place < batch.rows) places.now }
    requires all { length places.now ≡ batch.rows → places.now ≡ range_with_len 0 batch.rows }
    ensures rows { IfOk result (λ kept. rows_of kept ≡ picked [] places.now (rows_of batch)) }
    ensures types { IfOk result (λ kept. types_of kept ≡ types_of batch) }
    ensures number { IfOk result (λ kept. kept.number ≡ batch.number) }
{
    if places.len() as u64 == batch.rows {
        return Ok(batch);
    }
    batch.gather(alloc, places)
}
