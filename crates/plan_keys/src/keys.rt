// The key of an expression.
ghost use Rattle.std.specs.Prelude.{◌≡◌, ◌++◌, ◌∷◌, [], pos, IfOk, OnOk};
ghost use Rattle.std.specs.List.{flat_map};
ghost use Rattle.plan_keys.specs.Keys as spec;

use crate::numbers::{func_number, mode_number};
use crate::parts::{push_count, push_head, push_number, push_value, truth_number};
use plan_typed::{Expr, Func, Overflow};
use std::alloc::Global;
use sub_types::{NoMemory, Value};

/// The room that is taken for a key at first, enough for a literal or a column.
const SHORT_KEY: usize = 8;

/// The expression written out as whole numbers. Different expressions have different keys.
pub fn key_of(alloc: Global, expr: &Expr) -> Result<Vec<i128>, NoMemory>
    ensures { IfOk result (λ key. key.items ≡ spec.expr_key expr.now) }
{
    let mut key = Vec::with_capacity(alloc, SHORT_KEY)?;
    push_expr(&mut key, expr)?;
    Ok(key)
}

/// Writes the key of an expression at the end.
#[cycle(expr_keys)]
fn push_expr(out: &mut Vec<i128>, expr: &Expr) -> Result<(), NoMemory>
    ensures { OnOk result (out.new.items ≡ out.old.items ++ spec.expr_key expr.now) }
{
    match expr {
        Expr::Const { value, ty } => {
            push_head(out, 0, *ty)?;
            push_value(out, value)
        }
        Expr::Column { index, ty } => {
            push_head(out, 1, *ty)?;
            push_number(out, i128::from(*index))
        }
        Expr::Call {
            func,
            mode,
            args,
            ty,
        } => {
            push_head(out, 2, *ty)?;
            push_call(out, *func, *mode)?;
            push_count(out, args.len())?;
            push_exprs(out, args.as_slice())
        }
        Expr::If { arms, other, ty } => {
            push_head(out, 3, *ty)?;
            push_count(out, arms.len())?;
            push_arms(out, arms.as_slice())?;
            push_expr(out, other.get())
        }
        Expr::Switch {
            subject,
            arms,
            other,
            ty,
        } => {
            push_head(out, 4, *ty)?;
            push_expr(out, subject.get())?;
            push_count(out, arms.len())?;
            push_choices(out, arms.as_slice())?;
            push_expr(out, other.get())
        }
        Expr::OneOf { value, options, ty } => {
            push_head(out, 5, *ty)?;
            push_expr(out, value.get())?;
            push_count(out, options.len())?;
            push_exprs(out, options.as_slice())
        }
        Expr::Cast {
            input,
            null_on_fail,
            ty,
        } => {
            push_head(out, 6, *ty)?;
            push_number(out, truth_number(*null_on_fail))?;
            push_expr(out, input.get())
        }
    }
}

#[cycle(expr_keys)]
fn push_exprs(out: &mut Vec<i128>, exprs: &[Expr]) -> Result<(), NoMemory>
    ensures { OnOk result (out.new.items ≡ out.old.items ++ flat_map spec.expr_key exprs.now) }
{
    for expr in exprs {
        push_expr(out, expr)?;
    }
    Ok(())
}

#[cycle(expr_keys)]
fn push_arms(out: &mut Vec<i128>, arms: &[(Expr, Expr)]) -> Result<(), NoMemory>
    ensures { OnOk result (out.new.items ≡ out.old.items ++ flat_map (λ arm. spec.expr_key arm.0 ++ spec.expr_key arm.1) arms.now) }
{
    for arm in arms {
        push_expr(out, &arm.0)?;
        push_expr(out, &arm.1)?;
    }
    Ok(())
}

#[cycle(expr_keys)]
fn push_choices(out: &mut Vec<i128>, choices: &[(Value, Expr)]) -> Result<(), NoMemory>
    ensures { OnOk result (out.new.items ≡ out.old.items ++ flat_map (λ choice. spec.value_key choice.0 ++ spec.expr_key choice.1) choices.now) }
{
    for choice in choices {
        push_value(out, &choice.0)?;
        push_expr(out, &choice.1)?;
    }
    Ok(())
}

fn push_call(out: &mut Vec<i128>, func: Func, mode: Overflow) -> Result<(), NoMemory>
    ensures { OnOk result (out.new.items ≡ out.old.items ++ spec.call_key func mode) }
{
    push_number(out, func_number(func))?;
    push_number(out, mode_number(mode))
}
