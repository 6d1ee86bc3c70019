// The rests of conditions: their conjuncts over the second columns of both sides.
ghost use Rattle.std.specs.Prelude.{All, IfOk};
ghost use Rattle.well_typed.specs.WellTyped.{IsConditionOver};
ghost use Rattle.hash_join_tests.specs.Typed.{sides};

use crate::calls::{above, five, left, quotient, right, under, zero};
use plan_typed::Expr;
use std::alloc::Global;
use sub_types::NoMemory;

/// The rest of a condition over the second columns of both sides.
#[derive(Clone, Copy)]
pub(crate) enum Rest {
    None,
    /// The left one is less than the right one.
    Less,
    /// The left one divided by the right one is above 0, which faults at 0.
    Quotient,
    /// The left one divided by the right one is less than 5.
    BelowFive,
    /// The right one is above 0, and then the quotient is, which faults nowhere.
    Guarded,
    /// The left one is above 0, and then the quotient is less than 5, which faults at some of the rows with a 0.
    Both,
}

/// The conjuncts of a rest in order.
pub(crate) fn rest_of(alloc: Global, rest: Rest) -> Result<Vec<Expr>, NoMemory>
    ensures { IfOk result (λ parts. All (IsConditionOver sides) parts.items) }
{
    match rest {
        Rest::None => Ok(Vec::new(alloc)),
        Rest::Less => one(alloc, under(alloc, left(), right())?),
        Rest::Quotient => one(alloc, quotient_above(alloc)?),
        Rest::BelowFive => one(alloc, quotient_under(alloc)?),
        Rest::Guarded => both(
            alloc,
            above(alloc, right(), zero())?,
            quotient_above(alloc)?,
        ),
        Rest::Both => both(alloc, above(alloc, left(), zero())?, quotient_under(alloc)?),
    }
}

fn quotient_above(alloc: Global) -> Result<Expr, NoMemory>
    ensures { IfOk result (IsConditionOver sides) }
{
    let quotient = quotient(alloc)?;
    above(alloc, quotient, zero())
}

fn quotient_under(alloc: Global) -> Result<Expr, NoMemory>
    ensures { IfOk result (IsConditionOver sides) }
{
    let quotient = quotient(alloc)?;
    under(alloc, quotient, five())
}

fn one(alloc: Global, part: Expr) -> Result<Vec<Expr>, NoMemory>
    requires { IsConditionOver sides part }
    ensures { IfOk result (λ parts. All (IsConditionOver sides) parts.items) }
{
    let mut parts = Vec::new(alloc);
    parts.push(part)?;
    Ok(parts)
}

fn both(alloc: Global, first: Expr, second: Expr) -> Result<Vec<Expr>, NoMemory>
    requires first { IsConditionOver sides first }
    requires second { IsConditionOver sides second }
    ensures { IfOk result (λ parts. All (IsConditionOver sides) parts.items) }
{
    let mut parts = one(alloc, first)?;
    parts.push(second)?;
    Ok(parts)
}
