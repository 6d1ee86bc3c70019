//! Constants and columns at rows of a batch. They never stop.
ghost use Rattle.std.specs.Prelude.{◌≡◌, ◌<◌, All, IfOk};
ghost use Rattle.plan_typed.specs.Types.{ty_of};
ghost use Rattle.plan_typed.specs.declared.expr.Expr.TheVariants as exprs;
ghost use Rattle.well_typed.specs.ExprTyped.{IsTypedOver};
ghost use Rattle.batch.specs.BatchRows.{types_of};
ghost use Rattle.batch_nodes.specs.Evaluated.{eval_at};
ghost use Rattle.batch_nodes.specs.Found.{IsUntil};

use batch::Batch;
use batch_nodes::{Found, column_at};
use kernels::{Rows, Stop};
use plan_typed::Expr;
use std::alloc::Global;
use sub_types::{NoMemory, Ty, Value};

/// A constant at these rows.
pub(crate) fn constant<'a>(
    e: &'a Expr,
    value: &'a Value,
    ty: Ty,
    batch: &Batch,
    rows: &Rows<'_>,
) -> (Found<'a>, Stop)
    requires is { e.now ≡ exprs.Const value.now ty }
    requires typed { IsTypedOver (types_of batch.now) e.now }
    ensures { IsUntil (eval_at e.now batch.now) rows.now (ty_of e.now).kind result.0 result.1 }
{
    (Found::Constant(value, rows.len()), Stop::Never)
}

/// A column at these rows.
pub(crate) fn column<'a>(
    alloc: Global,
    e: &'a Expr,
    index: u32,
    ty: Ty,
    batch: &'a Batch,
    rows: &Rows<'_>,
) -> Result<(Found<'a>, Stop), NoMemory>
    requires is { e.now ≡ exprs.Column index ty }
    requires typed { IsTypedOver (types_of batch.now) e.now }
    requires exist { All (λ row. row < batch.now.rows) rows.now }
    ensures { IfOk result (λ out. IsUntil (eval_at e.now batch.now) rows.now (ty_of e.now).kind out.0 out.1) }
{
    let found = column_at(alloc, batch, index as usize, rows)?;
    Ok((found, Stop::Never))
}
