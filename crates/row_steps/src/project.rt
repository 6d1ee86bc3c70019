// Projections.
ghost use Rattle.std.specs.Prelude.{◌≡◌, map, IfOk};
ghost use Rattle.plan_denote.specs.Eval.{eval};
ghost use Rattle.plan_denote.specs.Project as spec;
ghost use Rattle.row_steps.specs.Seen.{seen, ComesAtMost};

use crate::each::each_row;
use crate::stream::RowStream;
use crate::values::{row_and, values_at};
use eval_row::PlainRow;
use eval_values::EvalError;
use plan_leaves::Items;
use plan_typed::Expr;
use std::alloc::Global;
use sub_types::{NoMemory, Value};

/// Each row followed by the values of the expressions.
pub fn projected(
    alloc: Global,
    number: u32,
    exprs: &[Expr],
    input: RowStream,
) -> Result<RowStream, NoMemory>
    ensures { IfOk result (λ s. seen s ≡ spec.projected number (map eval exprs.now) (seen input)) }
{
    each_row(alloc, number, input, |row| project_row(alloc, exprs, row))
}

fn project_row(
    alloc: Global,
    exprs: &[Expr],
    row: Items<Value>,
) -> Result<Option<Items<Value>>, EvalError>
    ensures { ComesAtMost result (spec.project_row (map eval exprs.now) row) }
{
    let values = values_at(alloc, exprs, &PlainRow::new(row.as_slice()))?;
    Ok(Some(row_and(row, values)?))
}
