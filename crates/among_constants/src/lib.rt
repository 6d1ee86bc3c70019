//! `singular_or_list` over constants, for all rows of a batch at once: the constants become a set, in which each value is found
//! without a look at one option after the other.
#![tactic(auto)]

ghost use Rattle.std.specs.Prelude.{◌≡◌, ℕ, List, map, IfOk, IfSome};
ghost use Rattle.sub_types.specs.declared.kind.Kind.{Kind};
ghost use Rattle.sub_types.specs.declared.kind.Kind.TheVariants as kinds;
ghost use Rattle.plan_typed.specs.declared.expr.Expr.{Expr};
ghost use Rattle.plan_typed.specs.declared.expr.Expr.TheVariants as exprs;
ghost use Rattle.batch.specs.ColumnValues.{values_of};
ghost use Rattle.batch.specs.declared.batch.Batch.{Batch};
ghost use Rattle.kernels.specs.declared.selection.Stop.{Stop};
ghost use Rattle.batch_nodes.specs.declared.found.Found.TheVariants.{Made};
ghost use Rattle.batch_nodes.specs.Evaluated.{eval_at};
ghost use Rattle.batch_nodes.specs.Found.{IsUntil, found_values};
ghost use Rattle.value_sets.specs.Sets.{answer_by, has};

mod columns;

use batch::{Column, ColumnBuilder};
use batch_nodes::Found;
use col_fixed::BoolCol;
use columns::column_answers;
use plan_typed::Expr;
use std::alloc::Global;
use sub_types::{NoMemory, Ty};
use value_sets::{ValueSet, answer, set_of_constants};

/// Whether each value is one of the options, as a column of this type, unless one of the options isn't a constant, or there is none:
/// where the values are those of an expression up to its first fault, the answers are those of the `singular_or_list` up to there.
pub fn among_constants(
    alloc: Global,
    ty: Ty,
    options: &[Expr],
    values: &Found<'_>,
) -> Result<Option<Column>, NoMemory>
    requires { ty.kind ≡ kinds.Bool }
    ensures ty { IfOk result (λ made. IfSome made (λ column. column.ty ≡ ty)) }
    ensures answers { IfOk result (λ made. IfSome made (λ column. (value : Expr) (batch : Batch) (rows : List ℕ) (kind : Kind) (stop : Stop) →
        IsUntil (eval_at value batch) rows kind values.now stop → IsUntil (eval_at (exprs.OneOf value options.now ty) batch) rows kinds.Bool (Made column) stop)) }
{
    if options.is_empty() {
        return Ok(None);
    }
    let Some(set) = set_of_constants(alloc, options)? else {
        return Ok(None);
    };
    Ok(Some(answers(alloc, ty, &set, values)?))
}

/// What the set says of each value.
fn answers(alloc: Global, ty: Ty, set: &ValueSet, values: &Found<'_>) -> Result<Column, NoMemory>
    requires { ty.kind ≡ kinds.Bool }
    ensures ty { IfOk result (λ column. column.ty ≡ ty) }
    ensures values { IfOk result (λ column. values_of column.values ≡ map (answer_by (has set.now)) (found_values values.now)) }
{
    let truths = column_answers(alloc, set, values)?;
    match truths {
        Some(truths) => Ok(Column::of_truths(ty, truths)),
        None => value_answers(alloc, ty, set, values),
    }
}

/// The same value by value.
fn value_answers(
    alloc: Global,
    ty: Ty,
    set: &ValueSet,
    values: &Found<'_>,
) -> Result<Column, NoMemory>
    requires { ty.kind ≡ kinds.Bool }
    ensures ty { IfOk result (λ column. column.ty ≡ ty) }
    ensures values { IfOk result (λ column. values_of column.values ≡ map (answer_by (has set.now)) (found_values values.now)) }
{
    let mut built = ColumnBuilder::with_capacity(alloc, ty, values.len())?;
    for i in 0..values.len() {
        let value = values.value_at(alloc, i)?;
        built.push(&answer(set, &value))?;
    }
    Ok(built.finish())
}
