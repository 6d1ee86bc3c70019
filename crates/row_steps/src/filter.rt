// Filters.
ghost use Rattle.std.specs.Prelude.{◌≡◌, IfOk};
ghost use Rattle.plan_denote.specs.Eval.{eval};
ghost use Rattle.plan_denote.specs.Filter as spec;
ghost use Rattle.plan_denote.specs.Rows.{condition_of};
ghost use Rattle.std.specs.Option.{option_map};
ghost use Rattle.row_steps.specs.Seen.{seen, ComesAtMost};

use crate::each::each_row;
use crate::stream::RowStream;
use eval_row::{PlainRow, eval_expr};
use eval_values::{EvalError, is_true};
use plan_leaves::Items;
use plan_typed::Expr;
use std::alloc::Global;
use sub_types::{NoMemory, Value};

/// The rows for which the condition is true.
pub fn filtered(
    alloc: Global,
    number: u32,
    condition: &Expr,
    input: RowStream,
) -> Result<RowStream, NoMemory>
    ensures { IfOk result (λ s. seen s ≡ spec.filtered number (eval condition.now) (seen input)) }
{
    each_row(
        alloc,
        number,
        input,
        |row| filter_row(alloc, condition, row),
    )
}

/// The same of a condition that may be absent.
pub fn filtered_if(
    alloc: Global,
    number: u32,
    condition: &Option<Expr>,
    input: RowStream,
) -> Result<RowStream, NoMemory>
    ensures { IfOk result (λ s. seen s ≡ spec.filtered number (condition_of (option_map eval condition.now)) (seen input)) }
{
    match condition {
        Some(condition) => filtered(alloc, number, condition, input),
        None => Ok(input),
    }
}

fn filter_row(
    alloc: Global,
    condition: &Expr,
    row: Items<Value>,
) -> Result<Option<Items<Value>>, EvalError>
    ensures { ComesAtMost result (spec.filter_row (eval condition.now) row) }
{
    let test = eval_expr(alloc, condition, &PlainRow::new(row.as_slice()))?;
    Ok(if is_true(&test) { Some(row) } else { None })
}
