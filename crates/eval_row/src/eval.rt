// What each expression is worth, as its definition goes: arguments from left to right, up to the first fault.
ghost use Rattle.std.specs.Prelude.{◌≡◌, ◌&&◌, [], false, IfOk, not, if◌then◌else◌, slice_index_or};
ghost use Rattle.batch.specs.BatchRows.{rows_of};
ghost use Rattle.eval_values.specs.Gives.{Gives};
ghost use Rattle.eval_row.specs.Lists.{kinds_of, worth, arms_at, choices_at, GivesAll, IsCell, Picks};
ghost use Rattle.plan_denote.specs.Calls.{called};
ghost use Rattle.plan_denote.specs.Casts.{cast, or_null};
ghost use Rattle.plan_denote.specs.Computed.{Computed, collect, is_null};
ghost use Rattle.plan_denote.specs.Order.{is_same};
ghost use Rattle.sub_types.specs.declared.value.Value.TheVariants as values;
ghost use Rattle.plan_denote.specs.Eval.{eval};
ghost use Rattle.plan_denote.specs.Logic.{coalesce, ends_at, first_equal, first_true, one_of};

use crate::row::{BatchRow, RowValues};
use batch::Batch;
use eval_values::{EvalError, apply, cast, is_null, is_same, is_true};
use plan_leaves::Items;
use plan_typed::{Expr, Func, Overflow};
use std::alloc::Global;
use sub_types::{FaultKind, Kind, NoMemory, Value};

/// What an expression is worth at a row.
#[derive(Debug, Drop)]
pub enum Cell {
    Value(Value),
    Fault(FaultKind),
}

/// What an expression is worth at a row of a batch.
pub fn eval_row(alloc: Global, e: &Expr, batch: &Batch, row: u64) -> Result<Cell, NoMemory>
    ensures { IfOk result (λ cell. IsCell cell (eval e.now (slice_index_or (rows_of batch.now) row []))) }
{
    cell_at(alloc, e, &BatchRow::new(batch, row))
}

/// What an expression is worth at a row, as a cell.
pub fn cell_at<R: RowValues>(alloc: Global, e: &Expr, row: &R) -> Result<Cell, NoMemory>
    ensures { IfOk result (λ cell. IsCell cell (eval e.now (R.as_row row.now))) }
{
    match eval_expr(alloc, e, row) {
        Ok(value) => Ok(Cell::Value(value)),
        Err(EvalError::Fault(kind)) => Ok(Cell::Fault(kind)),
        Err(EvalError::NoMemory) => Err(NoMemory),
    }
}

/// What an expression is worth at a row: a value, or the first fault from left to right.
#[cycle(eval)]
pub fn eval_expr<R: RowValues>(alloc: Global, expr: &Expr, row: &R) -> Result<Value, EvalError>
    ensures { Gives result (eval expr.now (R.as_row row.now)) }
{
    match expr {
        Expr::Const { value, .. } => Ok(value.copy(alloc)?),
        Expr::Column { index, .. } => Ok(row.value(alloc, *index)?),
        Expr::Call {
            func,
            mode,
            args,
            ty,
        } => call(alloc, *func, ty.kind, *mode, args.as_slice(), row),
        Expr::If { arms, other, .. } => match value_of_true(alloc, arms.as_slice(), row)? {
            Some(value) => Ok(value),
            None => eval_expr(alloc, other.get(), row),
        },
        Expr::Switch {
            subject,
            arms,
            other,
            ..
        } => {
            let subject = eval_expr(alloc, subject.get(), row)?;
            match value_of_equal(alloc, &subject, arms.as_slice(), row)? {
                Some(value) => Ok(value),
                None => eval_expr(alloc, other.get(), row),
            }
        }
        Expr::OneOf { value, options, .. } => {
            let value = eval_expr(alloc, value.get(), row)?;
            is_one_of(alloc, &value, options.as_slice(), row)
        }
        Expr::Cast {
            input,
            null_on_fail,
            ty,
        } => {
            let value = eval_expr(alloc, input.get(), row)?;
            cast_or_null(alloc, *null_on_fail, input.get().ty().kind, ty.kind, value)
        }
    }
}

/// A call.
#[cycle(eval)]
fn call<R: RowValues>(
    alloc: Global,
    func: Func,
    kind: Kind,
    mode: Overflow,
    args: &[Expr],
    row: &R,
) -> Result<Value, EvalError>
    ensures { Gives result (called func kind mode (kinds_of args.now) (worth args.now (R.as_row row.now))) }
{
    match func {
        Func::And => first_truth(alloc, false, args, row),
        Func::Or => first_truth(alloc, true, args, row),
        Func::Coalesce => first_value(alloc, args, row),
        _ => {
            let kinds = kinds_in(alloc, args)?;
            let values = values_at(alloc, args, row)?;
            apply(alloc, func, kind, mode, kinds.as_slice(), values.as_slice())
        }
    }
}

/// The values of all arguments, or the first fault.
#[cycle(eval)]
fn values_at<R: RowValues>(alloc: Global, args: &[Expr], row: &R) -> Result<Items<Value>, EvalError>
    ensures { GivesAll result (collect (worth args.now (R.as_row row.now))) }
{
    let mut values = Vec::with_capacity(alloc, args.len())?;
    for arg in args {
        values.push(eval_expr(alloc, arg, row)?)?;
    }
    Ok(Items::from_vec(values))
}

/// `and` with false as the truth value that ends it, `or` with true.
#[cycle(eval)]
fn first_truth<R: RowValues>(
    alloc: Global,
    end: bool,
    args: &[Expr],
    row: &R,
) -> Result<Value, EvalError>
    ensures { Gives result (ends_at end (worth args.now (R.as_row row.now))) }
{
    let mut seen_null = false;
    for arg in args {
        match eval_expr(alloc, arg, row)? {
            Value::Bool(test) => {
                if test == end {
                    return Ok(Value::Bool(end));
                }
            }
            _ => seen_null = true,
        }
    }
    Ok(truth_or_null(seen_null, !end))
}

/// The first value that isn't null.
#[cycle(eval)]
fn first_value<R: RowValues>(alloc: Global, args: &[Expr], row: &R) -> Result<Value, EvalError>
    ensures { Gives result (coalesce (worth args.now (R.as_row row.now))) }
{
    for arg in args {
        let value = eval_expr(alloc, arg, row)?;
        if !is_null(&value) {
            return Ok(value);
        }
    }
    Ok(Value::Null)
}

/// The value of the first arm whose condition is true, if there is one.
#[cycle(eval)]
fn value_of_true<R: RowValues>(
    alloc: Global,
    arms: &[(Expr, Expr)],
    row: &R,
) -> Result<Option<Value>, EvalError>
    ensures { (other : Computed) → Picks result other (first_true (arms_at arms.now (R.as_row row.now)) other) }
{
    for arm in arms {
        let test = eval_expr(alloc, &arm.0, row)?;
        if is_true(&test) {
            return Ok(Some(eval_expr(alloc, &arm.1, row)?));
        }
    }
    Ok(None)
}

/// The value of the first arm whose literal equals the subject, if there is one.
#[cycle(eval)]
fn value_of_equal<R: RowValues>(
    alloc: Global,
    subject: &Value,
    arms: &[(Value, Expr)],
    row: &R,
) -> Result<Option<Value>, EvalError>
    ensures { (other : Computed) → Picks result other (first_equal subject.now (choices_at arms.now (R.as_row row.now)) other) }
{
    for arm in arms {
        if is_chosen(subject, &arm.0) {
            return Ok(Some(eval_expr(alloc, &arm.1, row)?));
        }
    }
    Ok(None)
}

/// Whether a value is one of the options.
#[cycle(eval)]
fn is_one_of<R: RowValues>(
    alloc: Global,
    value: &Value,
    options: &[Expr],
    row: &R,
) -> Result<Value, EvalError>
    ensures { Gives result (one_of value.now (worth options.now (R.as_row row.now))) }
{
    let mut seen_null = false;
    for option in options {
        let other = eval_expr(alloc, option, row)?;
        if is_null(value) || is_null(&other) {
            seen_null = true;
        } else if is_same(value, &other) {
            return Ok(Value::Bool(true));
        }
    }
    Ok(truth_or_null(seen_null, false))
}

/// Null where a null was seen, and else the truth value.
fn truth_or_null(seen_null: bool, truth: bool) -> Value
    ensures { result ≡ if seen_null then values.Null else values.Bool truth }
{
    if seen_null {
        Value::Null
    } else {
        Value::Bool(truth)
    }
}

/// A null subject equals no literal.
fn is_chosen(subject: &Value, literal: &Value) -> bool
    ensures { result ≡ (not (is_null subject.now) && is_same subject.now literal.now) }
{
    !is_null(subject) && is_same(subject, literal)
}

/// A cast, whose failure is null where that is asked for.
fn cast_or_null(
    alloc: Global,
    null_on_fail: bool,
    from: Kind,
    to: Kind,
    value: Value,
) -> Result<Value, EvalError>
    ensures { Gives result (or_null null_on_fail (cast from to value)) }
{
    match cast(alloc, from, to, value) {
        Err(EvalError::Fault(_)) if null_on_fail => Ok(Value::Null),
        found => found,
    }
}

/// The kinds of expressions.
fn kinds_in(alloc: Global, args: &[Expr]) -> Result<Items<Kind>, NoMemory>
    ensures { IfOk result (λ kinds. kinds ≡ kinds_of args.now) }
{
    let mut kinds = Vec::with_capacity(alloc, args.len())?;
    for arg in args {
        kinds.push(arg.ty().kind)?;
    }
    Ok(Items::from_vec(kinds))
}
