// Expressions of the other forms: choices, membership and casts.
ghost use Rattle.std.specs.Prelude.{◌≡◌, ◌∷◌, [], IfOk};
ghost use Rattle.sub_types.specs.declared.value.Value.TheVariants as values;
ghost use Rattle.plan_typed.specs.declared.expr.Expr.TheVariants as exprs;
ghost use Rattle.eval_batch_tests.specs.Typed.{IsOver};

use crate::batches::NUMBER;
use crate::calls::TRUTH;
use plan_leaves::{Boxed, Items};
use plan_typed::Expr;
use std::alloc::Global;
use sub_types::{Kind, NoMemory, Ty, Value};

pub(crate) const BYTE: Ty = Ty {
    kind: Kind::I8,
    nullable: true,
};

fn one_arm(
    alloc: Global,
    condition: Expr,
    value: Expr,
    other: Expr,
    ty: Ty,
) -> Result<Expr, NoMemory>
    ensures { IfOk result (λ expr. expr ≡ exprs.If ((condition, value) ∷ []) other ty) }
{
    let mut arms = Items::new(alloc);
    arms.push((condition, value))?;
    let other = Boxed::new(alloc, other)?;
    Ok(Expr::If { arms, other, ty })
}

// The value where the condition is true, and else the other one.
pub(crate) fn choice(
    alloc: Global,
    condition: Expr,
    value: Expr,
    other: Expr,
) -> Result<Expr, NoMemory>
    requires condition { IsOver TRUTH condition }
    requires value { IsOver NUMBER value }
    requires other { IsOver NUMBER other }
    ensures { IfOk result (IsOver NUMBER) }
{
    let expr = one_arm(alloc, condition, value, other, NUMBER)?;
    Ok(expr)
}

fn one_case(
    alloc: Global,
    subject: Expr,
    number: i64,
    value: Expr,
    other: Expr,
    ty: Ty,
) -> Result<Expr, NoMemory>
    ensures { IfOk result (λ expr. expr ≡ exprs.Switch subject ((values.Int number, value) ∷ []) other ty) }
{
    let mut arms = Items::new(alloc);
    arms.push((Value::Int(number), value))?;
    let subject = Boxed::new(alloc, subject)?;
    let other = Boxed::new(alloc, other)?;
    Ok(Expr::Switch {
        subject,
        arms,
        other,
        ty,
    })
}

// The value where the subject is this number, and else the other one.
pub(crate) fn switch(
    alloc: Global,
    subject: Expr,
    number: i64,
    value: Expr,
    other: Expr,
) -> Result<Expr, NoMemory>
    requires subject { IsOver NUMBER subject }
    requires value { IsOver NUMBER value }
    requires other { IsOver NUMBER other }
    ensures { IfOk result (IsOver NUMBER) }
{
    let expr = one_case(alloc, subject, number, value, other, NUMBER)?;
    Ok(expr)
}

fn two_options(alloc: Global, value: Expr, a: Expr, b: Expr, ty: Ty) -> Result<Expr, NoMemory>
    ensures { IfOk result (λ expr. expr ≡ exprs.OneOf value (a ∷ b ∷ []) ty) }
{
    let mut options = Items::new(alloc);
    options.push(a)?;
    options.push(b)?;
    let value = Boxed::new(alloc, value)?;
    Ok(Expr::OneOf { value, options, ty })
}

// Whether the value is one of two.
pub(crate) fn among(alloc: Global, value: Expr, a: Expr, b: Expr) -> Result<Expr, NoMemory>
    requires value { IsOver NUMBER value }
    requires a { IsOver NUMBER a }
    requires b { IsOver NUMBER b }
    ensures { IfOk result (IsOver TRUTH) }
{
    let expr = two_options(alloc, value, a, b, TRUTH)?;
    Ok(expr)
}

fn cast(alloc: Global, input: Expr, null_on_fail: bool, ty: Ty) -> Result<Expr, NoMemory>
    ensures { IfOk result (λ expr. expr ≡ exprs.Cast input null_on_fail ty) }
{
    let input = Boxed::new(alloc, input)?;
    Ok(Expr::Cast {
        input,
        null_on_fail,
        ty,
    })
}

// The number in 8 bits. Where it doesn't fit it is null, or a fault.
pub(crate) fn in_byte(alloc: Global, input: Expr, null_on_fail: bool) -> Result<Expr, NoMemory>
    requires { IsOver NUMBER input }
    ensures { IfOk result (IsOver BYTE) }
{
    let expr = cast(alloc, input, null_on_fail, BYTE)?;
    Ok(expr)
}
