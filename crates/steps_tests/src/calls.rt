// Columns, constants and calls of two arguments.
ghost use Rattle.std.specs.Prelude.{◌≡◌, ◌∷◌, [], IfOk};
ghost use Rattle.plan_typed.specs.declared.expr.Expr.TheVariants as exprs;
ghost use Rattle.plan_typed.specs.declared.expr.Overflow.TheVariants as modes;
ghost use Rattle.steps_tests.specs.Typed.{IsOver};

use crate::batches::NUMBER;
use plan_leaves::{Boxed, Items};
use plan_typed::{Expr, Func, Overflow};
use std::alloc::Global;
use sub_types::{Kind, NoMemory, Ty, Value};

pub(crate) const TRUTH: Ty = Ty {
    kind: Kind::Bool,
    nullable: true,
};

pub(crate) fn first() -> Expr
    ensures { IsOver NUMBER result }
{
    Expr::Column {
        index: 0,
        ty: NUMBER,
    }
}

pub(crate) fn second() -> Expr
    ensures { IsOver NUMBER result }
{
    Expr::Column {
        index: 1,
        ty: NUMBER,
    }
}

pub(crate) fn number(number: i64) -> Expr
    ensures { IsOver NUMBER result }
{
    Expr::Const {
        value: Value::Int(number),
        ty: NUMBER,
    }
}

pub(crate) fn truth(truth: bool) -> Expr
    ensures { IsOver TRUTH result }
{
    Expr::Const {
        value: Value::Bool(truth),
        ty: TRUTH,
    }
}

// A truth value that is null.
pub(crate) fn unknown() -> Expr
    ensures { IsOver TRUTH result }
{
    Expr::Const {
        value: Value::Null,
        ty: TRUTH,
    }
}

// The calls of two arguments, by what they take and give.

fn call(alloc: Global, func: Func, a: Expr, b: Expr, ty: Ty) -> Result<Expr, NoMemory>
    ensures { IfOk result (λ expr. expr ≡ exprs.Call func modes.Error (a ∷ b ∷ []) ty) }
{
    let mut args = Items::new(alloc);
    args.push(a)?;
    args.push(b)?;
    Ok(Expr::Call {
        func,
        mode: Overflow::Error,
        args,
        ty,
    })
}

pub(crate) fn equal(alloc: Global, a: Expr, b: Expr) -> Result<Expr, NoMemory>
    requires a { IsOver NUMBER a }
    requires b { IsOver NUMBER b }
    ensures { IfOk result (IsOver TRUTH) }
{
    let expr = call(alloc, Func::Equal, a, b, TRUTH)?;
    Ok(expr)
}

pub(crate) fn above(alloc: Global, a: Expr, b: Expr) -> Result<Expr, NoMemory>
    requires a { IsOver NUMBER a }
    requires b { IsOver NUMBER b }
    ensures { IfOk result (IsOver TRUTH) }
{
    let expr = call(alloc, Func::Gt, a, b, TRUTH)?;
    Ok(expr)
}

pub(crate) fn sum(alloc: Global, a: Expr, b: Expr) -> Result<Expr, NoMemory>
    requires a { IsOver NUMBER a }
    requires b { IsOver NUMBER b }
    ensures { IfOk result (IsOver NUMBER) }
{
    let expr = call(alloc, Func::Add, a, b, NUMBER)?;
    Ok(expr)
}

pub(crate) fn quotient(alloc: Global, a: Expr, b: Expr) -> Result<Expr, NoMemory>
    requires a { IsOver NUMBER a }
    requires b { IsOver NUMBER b }
    ensures { IfOk result (IsOver NUMBER) }
{
    let expr = call(alloc, Func::Divide, a, b, NUMBER)?;
    Ok(expr)
}

pub(crate) fn both(alloc: Global, a: Expr, b: Expr) -> Result<Expr, NoMemory>
    requires a { IsOver TRUTH a }
    requires b { IsOver TRUTH b }
    ensures { IfOk result (IsOver TRUTH) }
{
    let expr = call(alloc, Func::And, a, b, TRUTH)?;
    Ok(expr)
}

pub(crate) fn either(alloc: Global, a: Expr, b: Expr) -> Result<Expr, NoMemory>
    requires a { IsOver TRUTH a }
    requires b { IsOver TRUTH b }
    ensures { IfOk result (IsOver TRUTH) }
{
    let expr = call(alloc, Func::Or, a, b, TRUTH)?;
    Ok(expr)
}

// A choice by one condition.
fn one_arm(
    alloc: Global,
    condition: Expr,
    value: Expr,
    other: Expr,
    ty: Ty,
) -> Result<Expr, NoMemory>
    ensures { IfOk result (λ expr. expr ≡ exprs.If ((condition, value) ∷ []) other ty) }
{
    let mut arms = Items::new(alloc);
    arms.push((condition, value))?;
    let other = Boxed::new(alloc, other)?;
    Ok(Expr::If { arms, other, ty })
}

// The number where the condition is true, and else the other one.
pub(crate) fn choice(
    alloc: Global,
    condition: Expr,
    value: Expr,
    other: Expr,
) -> Result<Expr, NoMemory>
    requires condition { IsOver TRUTH condition }
    requires value { IsOver NUMBER value }
    requires other { IsOver NUMBER other }
    ensures { IfOk result (IsOver NUMBER) }
{
    let expr = one_arm(alloc, condition, value, other, NUMBER)?;
    Ok(expr)
}
