// An expression at selected rows of a batch.
ghost use Rattle.std.specs.Prelude.{◌≡◌, ◌<◌, All, IfOk};
ghost use Rattle.sub_types.specs.Value.{Fits};
ghost use Rattle.plan_typed.specs.Types.{ty_of};
ghost use Rattle.well_typed.specs.ExprTyped.{IsTypedOver};
ghost use Rattle.batch.specs.BatchRows.{rows_of, types_of};
ghost use Rattle.batch.specs.ColumnValues.{values_of};
ghost use Rattle.batch_nodes.specs.Evaluated.{evaluated};

use crate::eval::eval_rows;
use batch::{Batch, Column};
use kernels::{Rows, Selection, Stop};
use plan_typed::Expr;
use std::alloc::Global;
use sub_types::NoMemory;

/// One value for each selected row before the stop, as a column of the expression's type, and the stop: the first
/// selected row at which the expression has a fault, if there is one.
pub fn eval_batch(
    alloc: Global,
    e: &Expr,
    batch: &Batch,
    on: &Selection,
) -> Result<(Column, Stop), NoMemory>
    requires typed { IsTypedOver (types_of batch.now) e.now }
    requires fit { All (Fits (types_of batch.now)) (rows_of batch.now) }
    requires exist { All (λ row. row < batch.now.rows) on.now.rows.items }
    ensures values { IfOk result (λ out. values_of out.0.values ≡ (evaluated e.now batch.now on.now.rows.items).values) }
    ensures stop { IfOk result (λ out. out.1 ≡ (evaluated e.now batch.now on.now.rows.items).stop) }
    ensures ty { IfOk result (λ out. out.0.ty ≡ ty_of e.now) }
{
    let rows = Rows::of(on, batch.rows as usize);
    let (found, stop) = eval_rows(alloc, e, batch, &rows)?;
    let column = found.into_column(alloc, e.ty())?;
    Ok((column, stop))
}
