// What an expression is worth at the rows of a batch, beside what it is worth at each of them.
ghost use Rattle.std.specs.Prelude.{◌≡◌, ◌<◌, ◌∷◌, [], All};
ghost use Rattle.batch.specs.BatchRows.{types_of};
ghost use Rattle.eval_batch_tests.specs.Typed.{IsOver};

use crate::batches::NUMBER;
use batch::{Batch, Column};
use eval_batch::eval_batch;
use eval_row::{Cell, eval_row};
use eval_values::is_same;
use kernels::{Selection, Stop};
use plan_typed::Expr;
use std::alloc::Global;
use sub_types::{NoMemory, Ty, Value};

// What the expression of this type is worth at these rows before the first fault, and that fault.
pub(crate) fn worth(
    alloc: Global,
    expr: &Expr,
    ty: Ty,
    batch: &Batch,
    on: &Selection,
) -> Result<(Column, Stop), NoMemory>
    requires expr { IsOver ty expr.now }
    requires types { types_of batch.now ≡ NUMBER ∷ NUMBER ∷ [] }
    requires exist { All (λ row. row < batch.now.rows) on.now.rows.items }
{
    let (column, stop) = eval_batch(alloc, expr, batch, on)?;
    if column.ty != ty {
        return Err(NoMemory);
    }
    Ok((column, stop))
}

// Whether the column ends after so many values, and has this one at its place.
fn has_at(alloc: Global, column: &Column, at: usize, value: &Value) -> Result<bool, NoMemory> {
    if at >= column.values.len() {
        return Ok(false);
    }
    let found = column.values.value_at(alloc, at)?;
    Ok(is_same(&found, value))
}

// Whether these are the values and the stop that each row by itself gives, up to the first fault.
fn is_of_rows(
    alloc: Global,
    expr: &Expr,
    batch: &Batch,
    on: &Selection,
    column: &Column,
    stop: Stop,
) -> Result<bool, NoMemory> {
    for (at, row) in on.rows.iter().enumerate() {
        match eval_row(alloc, expr, batch, *row)? {
            Cell::Value(value) => {
                if !has_at(alloc, column, at, &value)? {
                    return Ok(false);
                }
            }
            Cell::Fault(kind) => {
                return Ok(column.values.len() == at && stop == Stop::At { row: *row, kind });
            }
        }
    }
    Ok(column.values.len() == on.rows.len() && stop == Stop::Never)
}

// Whether the expression of this type is worth at these rows what it is worth at each of them.
pub(crate) fn agrees(
    alloc: Global,
    expr: &Expr,
    ty: Ty,
    batch: &Batch,
    on: &Selection,
) -> Result<bool, NoMemory>
    requires expr { IsOver ty expr.now }
    requires types { types_of batch.now ≡ NUMBER ∷ NUMBER ∷ [] }
    requires exist { All (λ row. row < batch.now.rows) on.now.rows.items }
{
    let (column, stop) = worth(alloc, expr, ty, batch, on)?;
    is_of_rows(alloc, expr, batch, on, &column, stop)
}

// Whether the expression of this type is worth these values at these rows, and ends in this stop.
pub(crate) fn gives(
    alloc: Global,
    expr: &Expr,
    ty: Ty,
    batch: &Batch,
    on: &Selection,
    values: &[Value],
    end: Stop,
) -> Result<bool, NoMemory>
    requires expr { IsOver ty expr.now }
    requires types { types_of batch.now ≡ NUMBER ∷ NUMBER ∷ [] }
    requires exist { All (λ row. row < batch.now.rows) on.now.rows.items }
{
    let (column, stop) = worth(alloc, expr, ty, batch, on)?;
    for (at, value) in values.iter().enumerate() {
        if !has_at(alloc, &column, at, value)? {
            return Ok(false);
        }
    }
    Ok(column.values.len() == values.len() && stop == end)
}
