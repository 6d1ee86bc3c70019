// The rests of joins' conditions over two columns of numbers on each side: calls of columns and constants.
ghost use Rattle.std.specs.Prelude.{◌≡◌, ◌∷◌, [], IfOk};
ghost use Rattle.std.specs.List.{All};
ghost use Rattle.plan_typed.specs.declared.expr.Expr.TheVariants as exprs;
ghost use Rattle.plan_typed.specs.declared.expr.Overflow.TheVariants as modes;
ghost use Rattle.well_typed.specs.WellTyped.{IsConditionOver};
ghost use Rattle.pipe_round_tests.specs.Rests.{IsTyped};
ghost use Rattle.pipe_round_tests.specs.Steps.{sides};

use crate::batches::NUMBER;
use plan_leaves::Items;
use plan_typed::{Expr, Func, Overflow};
use std::alloc::Global;
use sub_types::{Kind, NoMemory, Ty, Value};

const TRUTH: Ty = Ty {
    kind: Kind::Bool,
    nullable: true,
};

/// The rest of a condition over the second columns of both sides.
#[derive(Clone, Copy)]
pub(crate) enum Rest {
    None,
    /// The left one is less than the right one.
    Less,
    /// The left one divided by the right one is above 0, which faults at 0.
    Quotient,
}

/// The conjuncts of a rest.
pub(crate) fn rest_of(alloc: Global, rest: Rest) -> Result<Vec<Expr>, NoMemory>
    ensures { IfOk result (λ parts. All (IsConditionOver sides) parts.items) }
{
    match rest {
        Rest::None => Ok(Vec::new(alloc)),
        Rest::Less => one(alloc, under(alloc)?),
        Rest::Quotient => one(alloc, quotient_above(alloc)?),
    }
}

fn one(alloc: Global, part: Expr) -> Result<Vec<Expr>, NoMemory>
    requires { IsConditionOver sides part }
    ensures { IfOk result (λ parts. All (IsConditionOver sides) parts.items) }
{
    let mut parts = Vec::new(alloc);
    parts.push(part)?;
    Ok(parts)
}

// Whether the left one is less than the right one.
fn under(alloc: Global) -> Result<Expr, NoMemory>
    ensures { IfOk result (IsConditionOver sides) }
{
    let expr = call(alloc, Func::Lt, left(), right(), TRUTH)?;
    Ok(expr)
}

// Whether the left one divided by the right one is above 0.
fn quotient_above(alloc: Global) -> Result<Expr, NoMemory>
    ensures { IfOk result (IsConditionOver sides) }
{
    let quotient = quotient(alloc)?;
    let expr = call(alloc, Func::Gt, quotient, zero(), TRUTH)?;
    Ok(expr)
}

fn quotient(alloc: Global) -> Result<Expr, NoMemory>
    ensures { IfOk result (IsTyped NUMBER) }
{
    let expr = call(alloc, Func::Divide, left(), right(), NUMBER)?;
    Ok(expr)
}

fn left() -> Expr
    ensures { IsTyped NUMBER result }
{
    Expr::Column {
        index: 1,
        ty: NUMBER,
    }
}

fn right() -> Expr
    ensures { IsTyped NUMBER result }
{
    Expr::Column {
        index: 3,
        ty: NUMBER,
    }
}

fn zero() -> Expr
    ensures { IsTyped NUMBER result }
{
    Expr::Const {
        value: Value::Int(0),
        ty: NUMBER,
    }
}

fn call(alloc: Global, func: Func, first: Expr, second: Expr, ty: Ty) -> Result<Expr, NoMemory>
    ensures { IfOk result (λ expr. expr ≡ exprs.Call func modes.Error (first ∷ second ∷ []) ty) }
{
    let mut args = Items::new(alloc);
    args.push(first)?;
    args.push(second)?;
    Ok(Expr::Call {
        func,
        mode: Overflow::Error,
        args,
        ty,
    })
}
