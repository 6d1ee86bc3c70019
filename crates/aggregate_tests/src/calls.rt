// Columns, constants and calls of two arguments, by what they take and give.
ghost use Rattle.std.specs.Prelude.{◌≡◌, ◌∷◌, [], IfOk};
ghost use Rattle.plan_typed.specs.declared.expr.Expr.TheVariants as exprs;
ghost use Rattle.plan_typed.specs.declared.expr.Overflow.TheVariants as modes;
ghost use Rattle.well_typed.specs.WellTyped.{IsConditionOver};
ghost use Rattle.aggregate_tests.specs.Typed.{IsTyped, numbers};

use crate::rows::NUMBER;
use plan_leaves::Items;
use plan_typed::{Expr, Func, Overflow};
use std::alloc::Global;
use sub_types::{Kind, NoMemory, Ty, Value};

const TRUTH: Ty = Ty {
    kind: Kind::Bool,
    nullable: true,
};

pub(crate) fn first() -> Expr
    ensures { IsTyped NUMBER result }
{
    Expr::Column {
        index: 0,
        ty: NUMBER,
    }
}

pub(crate) fn second() -> Expr
    ensures { IsTyped NUMBER result }
{
    Expr::Column {
        index: 1,
        ty: NUMBER,
    }
}

pub(crate) fn two() -> Expr
    ensures { IsTyped NUMBER result }
{
    Expr::Const {
        value: Value::Int(2),
        ty: NUMBER,
    }
}

fn call(alloc: Global, func: Func, a: Expr, b: Expr, ty: Ty) -> Result<Expr, NoMemory>
    ensures { IfOk result (λ expr. expr ≡ exprs.Call func modes.Error (a ∷ b ∷ []) ty) }
{
    let mut args = Items::new(alloc);
    args.push(a)?;
    args.push(b)?;
    Ok(Expr::Call {
        func,
        mode: Overflow::Error,
        args,
        ty,
    })
}

pub(crate) fn quotient(alloc: Global, a: Expr, b: Expr) -> Result<Expr, NoMemory>
    requires a { IsTyped NUMBER a }
    requires b { IsTyped NUMBER b }
    ensures { IfOk result (IsTyped NUMBER) }
{
    let expr = call(alloc, Func::Divide, a, b, NUMBER)?;
    Ok(expr)
}

/// Whether the one number is below the other.
pub(crate) fn under(alloc: Global, a: Expr, b: Expr) -> Result<Expr, NoMemory>
    requires a { IsTyped NUMBER a }
    requires b { IsTyped NUMBER b }
    ensures { IfOk result (IsConditionOver numbers) }
{
    let expr = call(alloc, Func::Lt, a, b, TRUTH)?;
    Ok(expr)
}

/// Whether the one number is above the other.
pub(crate) fn above(alloc: Global, a: Expr, b: Expr) -> Result<Expr, NoMemory>
    requires a { IsTyped NUMBER a }
    requires b { IsTyped NUMBER b }
    ensures { IfOk result (IsConditionOver numbers) }
{
    let expr = call(alloc, Func::Gt, a, b, TRUTH)?;
    Ok(expr)
}
