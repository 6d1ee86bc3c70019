// Expressions over the two columns, some of which fault at some rows.
ghost use Rattle.std.specs.Prelude.{IfOk};
ghost use Rattle.eval_batch_tests.specs.Typed.{IsOver};

use crate::batches::NUMBER;
use crate::calls::{
    TRUTH, above, both, either, equal, first, first_of, number, quotient, second, sum,
};
use crate::choices::{BYTE, among, choice, in_byte, switch};
use plan_typed::Expr;
use std::alloc::Global;
use sub_types::NoMemory;

// 1 where the first is 0, and else the first divided by the second.
pub(crate) fn quotient_or_one(alloc: Global) -> Result<Expr, NoMemory>
    ensures { IfOk result (IsOver NUMBER) }
{
    let is_zero = equal(alloc, first(), number(0))?;
    let divided = quotient(alloc, first(), second())?;
    let expr = choice(alloc, is_zero, number(1), divided)?;
    Ok(expr)
}

// Whether the first divided by the second is above 1, where the second is above 0.
pub(crate) fn quotient_above_one(alloc: Global) -> Result<Expr, NoMemory>
    ensures { IfOk result (IsOver TRUTH) }
{
    let divides = above(alloc, second(), number(0))?;
    let divided = quotient(alloc, first(), second())?;
    let is_above = above(alloc, divided, number(1))?;
    let expr = both(alloc, divides, is_above)?;
    Ok(expr)
}

// The same without the test of the second, where the first is 2 or less.
pub(crate) fn small_or_quotient(alloc: Global) -> Result<Expr, NoMemory>
    ensures { IfOk result (IsOver TRUTH) }
{
    let is_small = above(alloc, number(3), first())?;
    let divided = quotient(alloc, first(), second())?;
    let is_above = above(alloc, divided, number(1))?;
    let expr = either(alloc, is_small, is_above)?;
    Ok(expr)
}

// The first, or where it is null their quotient.
pub(crate) fn first_or_quotient(alloc: Global) -> Result<Expr, NoMemory>
    ensures { IfOk result (IsOver NUMBER) }
{
    let divided = quotient(alloc, number(100), second())?;
    let expr = first_of(alloc, first(), divided)?;
    Ok(expr)
}

// 7 where the second is 0, and else the first divided by it.
pub(crate) fn seven_or_quotient(alloc: Global) -> Result<Expr, NoMemory>
    ensures { IfOk result (IsOver NUMBER) }
{
    let divided = quotient(alloc, first(), second())?;
    let expr = switch(alloc, second(), 0, number(7), divided)?;
    Ok(expr)
}

// Whether the first is 3 or 5.
pub(crate) fn three_or_five(alloc: Global) -> Result<Expr, NoMemory>
    ensures { IfOk result (IsOver TRUTH) }
{
    let expr = among(alloc, first(), number(3), number(5))?;
    Ok(expr)
}

// Whether the first is 3 or the second.
pub(crate) fn three_or_second(alloc: Global) -> Result<Expr, NoMemory>
    ensures { IfOk result (IsOver TRUTH) }
{
    let expr = among(alloc, first(), number(3), second())?;
    Ok(expr)
}

// The sum of both in 8 bits, which many don't fit.
pub(crate) fn sum_in_byte(alloc: Global, null_on_fail: bool) -> Result<Expr, NoMemory>
    ensures { IfOk result (IsOver BYTE) }
{
    let both = sum(alloc, first(), second())?;
    let expr = in_byte(alloc, both, null_on_fail)?;
    Ok(expr)
}
