// Columns, constants and calls of two arguments, by what they take and give.
ghost use Rattle.std.specs.Prelude.{◌≡◌, ◌∷◌, [], IfOk};
ghost use Rattle.plan_typed.specs.declared.expr.Expr.TheVariants as exprs;
ghost use Rattle.plan_typed.specs.declared.expr.Overflow.TheVariants as modes;
ghost use Rattle.well_typed.specs.WellTyped.{IsConditionOver};
ghost use Rattle.hash_join_tests.specs.Typed.{IsTyped, sides};

use crate::batches::NUMBER;
use plan_leaves::Items;
use plan_typed::{Expr, Func, Overflow};
use std::alloc::Global;
use sub_types::{Kind, NoMemory, Ty, Value};

pub(crate) const TRUTH: Ty = Ty {
    kind: Kind::Bool,
    nullable: true,
};

/// The second column on the left.
pub(crate) fn left() -> Expr
    ensures { IsTyped NUMBER result }
{
    column(1)
}

/// The second column on the right.
pub(crate) fn right() -> Expr
    ensures { IsTyped NUMBER result }
{
    column(3)
}

pub(crate) fn column(index: u32) -> Expr
    ensures { result ≡ exprs.Column index NUMBER }
{
    Expr::Column { index, ty: NUMBER }
}

pub(crate) fn zero() -> Expr
    ensures { IsTyped NUMBER result }
{
    Expr::Const {
        value: Value::Int(0),
        ty: NUMBER,
    }
}

pub(crate) fn five() -> Expr
    ensures { IsTyped NUMBER result }
{
    Expr::Const {
        value: Value::Int(5),
        ty: NUMBER,
    }
}

pub(crate) fn call(
    alloc: Global,
    func: Func,
    first: Expr,
    second: Expr,
    ty: Ty,
) -> Result<Expr, NoMemory>
    ensures { IfOk result (λ expr. expr ≡ exprs.Call func modes.Error (first ∷ second ∷ []) ty) }
{
    let mut args = Items::new(alloc);
    args.push(first)?;
    args.push(second)?;
    Ok(Expr::Call {
        func,
        mode: Overflow::Error,
        args,
        ty,
    })
}

/// The left one divided by the right one.
pub(crate) fn quotient(alloc: Global) -> Result<Expr, NoMemory>
    ensures { IfOk result (IsTyped NUMBER) }
{
    let expr = call(alloc, Func::Divide, left(), right(), NUMBER)?;
    Ok(expr)
}

/// Whether the one number is below the other.
pub(crate) fn under(alloc: Global, first: Expr, second: Expr) -> Result<Expr, NoMemory>
    requires first { IsTyped NUMBER first }
    requires second { IsTyped NUMBER second }
    ensures { IfOk result (IsConditionOver sides) }
{
    let expr = call(alloc, Func::Lt, first, second, TRUTH)?;
    Ok(expr)
}

/// Whether the one number is above the other.
pub(crate) fn above(alloc: Global, first: Expr, second: Expr) -> Result<Expr, NoMemory>
    requires first { IsTyped NUMBER first }
    requires second { IsTyped NUMBER second }
    ensures { IfOk result (IsConditionOver sides) }
{
    let expr = call(alloc, Func::Gt, first, second, TRUTH)?;
    Ok(expr)
}
