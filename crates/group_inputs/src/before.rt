// The rows at which all expressions so far have values.
ghost use Rattle.std.specs.Prelude.{◌≡◌, ◌≤◌, All, IfOk};
ghost use Rattle.sub_types.specs.Value.{Fits};
ghost use Rattle.plan_typed.specs.Types.{ty_of};
ghost use Rattle.well_typed.specs.ExprTyped.{IsTypedOver};
ghost use Rattle.batch.specs.BatchRows.{rows_of, types_of};
ghost use Rattle.group_laws.specs.Columns.{first_stop};
ghost use Rattle.group_inputs.specs.Before.{kind_in, IsColumn};

use batch::{Batch, Column};
use eval_batch::eval_rows;
use kernels::{Rows, Stop};
use plan_typed::Expr;
use std::alloc::Global;
use sub_types::{FaultKind, NoMemory};

/// How many of a batch's first rows have values of all expressions so far, and the fault of the row behind them, if there is one.
#[derive(Clone, Copy)]
pub struct Before {
    pub rows: usize,
    pub stop: Option<FaultKind>,
}

/// The fault of a stop, or else the one before.
pub(crate) fn kind_or(stop: Stop, before: Option<FaultKind>) -> Option<FaultKind>
    ensures { result ≡ first_stop (kind_in stop) before }
{
    match stop {
        Stop::Never => before,
        Stop::At { kind, .. } => Some(kind),
    }
}

/// An expression at the first rows.
pub(crate) fn values_before(
    alloc: Global,
    expr: &Expr,
    batch: &Batch,
    before: Before,
) -> Result<(Column, Before), NoMemory>
    requires few { before.rows ≤ batch.now.rows }
    requires typed { IsTypedOver (types_of batch.now) expr.now }
    requires fit { All (Fits (types_of batch.now)) (rows_of batch.now) }
    ensures column { IfOk result (λ out. IsColumn expr.now batch.now before out.0 out.1) }
    ensures ty { IfOk result (λ out. out.0.ty ≡ ty_of expr.now) }
{
    let (found, stop) = eval_rows(alloc, expr, batch, &Rows::all(before.rows))?;
    let after = Before {
        rows: found.len(),
        stop: kind_or(stop, before.stop),
    };
    let column = found.into_column(alloc, expr.ty())?;
    Ok((column, after))
}
