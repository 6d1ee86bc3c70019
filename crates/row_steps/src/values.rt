// What expressions are worth at a row.
ghost use Rattle.std.specs.Prelude.{◌≡◌, ◌++◌, map, IfOk};
ghost use Rattle.std.specs.Option.{option_map};
ghost use Rattle.eval_values.specs.Gives.{Gives};
ghost use Rattle.plan_denote.specs.Join as joins;
ghost use Rattle.plan_denote.specs.Eval.{eval};
ghost use Rattle.plan_denote.specs.Rows.{condition_of, values_at as spec_values_at};
ghost use Rattle.row_steps.specs.Seen.{Comes};

use crate::lists::collect_of;
use eval_row::{RowValues, eval_expr};
use eval_values::EvalError;
use plan_leaves::Items;
use plan_typed::Expr;
use std::alloc::Global;
use sub_types::{NoMemory, Value};

/// The values of expressions at a row from left to right, or the first fault.
pub fn values_at<R: RowValues>(
    alloc: Global,
    exprs: &[Expr],
    row: &R,
) -> Result<Items<Value>, EvalError>
    ensures { Comes result (spec_values_at (map eval exprs.now) (R.as_row row.now)) }
{
    collect_of(alloc, exprs, |expr| eval_expr(alloc, expr, row))
}

/// What a condition is worth at a row; one that is absent is true.
pub fn condition_at<R: RowValues>(
    alloc: Global,
    condition: &Option<Expr>,
    row: &R,
) -> Result<Value, EvalError>
    ensures { Gives result (condition_of (option_map eval condition.now) (R.as_row row.now)) }
{
    match condition {
        Some(condition) => eval_expr(alloc, condition, row),
        None => Ok(Value::Bool(true)),
    }
}

/// A row and then more values.
pub fn row_and(row: Items<Value>, more: Items<Value>) -> Result<Items<Value>, NoMemory>
    ensures { IfOk result (λ whole. whole ≡ row ++ more) }
{
    let mut whole = row.into_vec();
    let mut more = more.into_vec();
    whole.append(&mut more)?;
    Ok(Items::from_vec(whole))
}

/// A row of so many nulls.
pub fn nulls(alloc: Global, width: usize) -> Result<Items<Value>, NoMemory>
    ensures { IfOk result (λ row. row ≡ joins.nulls width) }
{
    let mut row = Items::new(alloc);
    for _ in 0..width {
        row.push(Value::Null)?;
    }
    Ok(row)
}
