// Expressions with the values of subqueries put in: copies, in which each node is counted before those inside it.
ghost use Rattle.std.specs.Prelude.{◌≡◌, ◌+◌, IfOk, OnOk, map};
ghost use Rattle.plan_denote.specs.Holes.{filled_expr, all_from, size_of_all, maybe_from, size_of_maybe};
ghost use Rattle.sub_query.specs.Known.{worths_at};
ghost use Rattle.sub_query.specs.Parts.{value_with, options_with, arms_with, size_of_arms, choices_with, size_of_choices};
ghost use Rattle.plan_typed.specs.declared.expr.Expr.TheVariants as exprs;

use crate::Worth;
use crate::node_worths::{NodeWorths, take_number};
use plan_leaves::{Boxed, Items, zip};
use plan_typed::Expr;
use std::alloc::Global;
use sub_types::{NoMemory, Ty, Value};

/// The expression with the values put in, whose own node is the next one.
#[cycle(fill_expr)]
pub(crate) fn fill_expr(
    alloc: Global,
    expr: &Expr,
    worths: &NodeWorths,
    next: &mut u64,
) -> Result<Expr, NoMemory>
    ensures made { IfOk result (λ made. made ≡ (filled_expr (worths_at worths.now) expr.now).at next.old) }
    ensures next { OnOk result (next.new ≡ next.old + (filled_expr (worths_at worths.now) expr.now).size) }
{
    let number = take_number(next)?;
    match expr {
        Expr::Const { value, ty } => Ok(Expr::Const {
            value: value_at(alloc, worths, number, value)?,
            ty: *ty,
        }),
        Expr::Column { index, ty } => Ok(Expr::Column {
            index: *index,
            ty: *ty,
        }),
        Expr::Call {
            func,
            mode,
            args,
            ty,
        } => Ok(Expr::Call {
            func: *func,
            mode: *mode,
            args: fill_exprs(alloc, args.as_slice(), worths, next)?,
            ty: *ty,
        }),
        Expr::If { arms, other, ty } => {
            let arms = fill_arms(alloc, arms.as_slice(), worths, next);
            let (arms, other) = zip(arms, fill_boxed(alloc, other, worths, next))?;
            Ok(Expr::If {
                arms,
                other,
                ty: *ty,
            })
        }
        Expr::Switch {
            subject,
            arms,
            other,
            ty,
        } => {
            let subject = fill_boxed(alloc, subject, worths, next);
            let arms = fill_choices(alloc, arms.as_slice(), worths, next);
            let other = fill_boxed(alloc, other, worths, next);
            let (subject, (arms, other)) = zip(subject, zip(arms, other))?;
            Ok(Expr::Switch {
                subject,
                arms,
                other,
                ty: *ty,
            })
        }
        Expr::OneOf { value, options, ty } => {
            let value = fill_boxed(alloc, value, worths, next);
            let options = fill_options(alloc, number, options.as_slice(), worths, next);
            let (value, options) = zip(value, options)?;
            Ok(Expr::OneOf {
                value,
                options,
                ty: *ty,
            })
        }
        Expr::Cast {
            input,
            null_on_fail,
            ty,
        } => Ok(Expr::Cast {
            input: fill_boxed(alloc, input, worths, next)?,
            null_on_fail: *null_on_fail,
            ty: *ty,
        }),
    }
}

#[cycle(fill_expr)]
fn fill_boxed(
    alloc: Global,
    expr: &Boxed<Expr>,
    worths: &NodeWorths,
    next: &mut u64,
) -> Result<Boxed<Expr>, NoMemory>
    ensures made { IfOk result (λ made. made ≡ (filled_expr (worths_at worths.now) expr.now).at next.old) }
    ensures next { OnOk result (next.new ≡ next.old + (filled_expr (worths_at worths.now) expr.now).size) }
{
    Boxed::new(alloc, fill_expr(alloc, expr.get(), worths, next)?)
}

/// Expressions one after the other, of which the first is the next one.
#[cycle(fill_expr)]
pub(crate) fn fill_exprs(
    alloc: Global,
    exprs: &[Expr],
    worths: &NodeWorths,
    next: &mut u64,
) -> Result<Items<Expr>, NoMemory>
    ensures made { IfOk result (λ made. made ≡ all_from (worths_at worths.now) next.old exprs.now) }
    ensures next { OnOk result (next.new ≡ next.old + size_of_all (worths_at worths.now) exprs.now) }
{
    let mut made = Vec::with_capacity(alloc, exprs.len())?;
    for expr in exprs {
        made.push(fill_expr(alloc, expr, worths, next)?)?;
    }
    Ok(Items::from_vec(made))
}

/// The options of a list with this number, which are counted whether others are put in their place or not.
#[cycle(fill_expr)]
fn fill_options(
    alloc: Global,
    number: u64,
    options: &[Expr],
    worths: &NodeWorths,
    next: &mut u64,
) -> Result<Items<Expr>, NoMemory>
    ensures made { IfOk result
        (λ made. made ≡ options_with (worths_at worths.now number) (all_from (worths_at worths.now) next.old options.now)) }
    ensures next { OnOk result (next.new ≡ next.old + size_of_all (worths_at worths.now) options.now) }
{
    let options = fill_exprs(alloc, options, worths, next)?;
    match worths.at(number) {
        Some(Worth::Among { column, found }) => constants(alloc, *column, found.as_slice()),
        _ => Ok(options),
    }
}

#[cycle(fill_expr)]
fn fill_arms(
    alloc: Global,
    arms: &[(Expr, Expr)],
    worths: &NodeWorths,
    next: &mut u64,
) -> Result<Items<(Expr, Expr)>, NoMemory>
    ensures made { IfOk result (λ made. made ≡ arms_with (worths_at worths.now) next.old arms.now) }
    ensures next { OnOk result (next.new ≡ next.old + size_of_arms (worths_at worths.now) arms.now) }
{
    let mut made = Vec::with_capacity(alloc, arms.len())?;
    for arm in arms {
        let test = fill_expr(alloc, &arm.0, worths, next);
        made.push(zip(test, fill_expr(alloc, &arm.1, worths, next))?)?;
    }
    Ok(Items::from_vec(made))
}

#[cycle(fill_expr)]
fn fill_choices(
    alloc: Global,
    choices: &[(Value, Expr)],
    worths: &NodeWorths,
    next: &mut u64,
) -> Result<Items<(Value, Expr)>, NoMemory>
    ensures made { IfOk result (λ made. made ≡ choices_with (worths_at worths.now) next.old choices.now) }
    ensures next { OnOk result (next.new ≡ next.old + size_of_choices (worths_at worths.now) choices.now) }
{
    let mut made = Vec::with_capacity(alloc, choices.len())?;
    for choice in choices {
        let value = choice.0.copy(alloc);
        made.push(zip(value, fill_expr(alloc, &choice.1, worths, next))?)?;
    }
    Ok(Items::from_vec(made))
}

/// An optional expression.
pub(crate) fn fill_maybe(
    alloc: Global,
    expr: &Option<Expr>,
    worths: &NodeWorths,
    next: &mut u64,
) -> Result<Option<Expr>, NoMemory>
    ensures made { IfOk result (λ made. made ≡ maybe_from (worths_at worths.now) next.old expr.now) }
    ensures next { OnOk result (next.new ≡ next.old + size_of_maybe (worths_at worths.now) expr.now) }
{
    match expr {
        None => Ok(None),
        Some(expr) => Ok(Some(fill_expr(alloc, expr, worths, next)?)),
    }
}

/// The value of a constant with this number.
fn value_at(
    alloc: Global,
    worths: &NodeWorths,
    number: u64,
    value: &Value,
) -> Result<Value, NoMemory>
    ensures { IfOk result (λ made. made ≡ value_with (worths_at worths.now number) value.now) }
{
    match worths.at(number) {
        Some(Worth::Single(found)) => found.copy(alloc),
        _ => value.copy(alloc),
    }
}

/// Values as constants of a type.
fn constants(alloc: Global, ty: Ty, values: &[Value]) -> Result<Items<Expr>, NoMemory>
    ensures { IfOk result (λ made. made ≡ map (λ one. exprs.Const one ty) values.now) }
{
    let mut made = Vec::with_capacity(alloc, values.len())?;
    for value in values {
        made.push(Expr::Const {
            value: value.copy(alloc)?,
            ty,
        })?;
    }
    Ok(Items::from_vec(made))
}
