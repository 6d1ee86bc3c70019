// The expressions of the worked rows, as they are written.
ghost use Rattle.std.specs.Prelude.{IfOk};
ghost use Rattle.steps_tests.specs.Typed.{IsOver};

use crate::batches::NUMBER;
use crate::calls::{
    TRUTH, above, both, choice, equal, first, number, quotient, second, sum, truth, unknown,
};
use anyhow::{Result, bail};
use plan_typed::Expr;
use std::alloc::Global;
use sub_types::NoMemory;

/// A number by its text.
pub(crate) fn number_of(alloc: Global, text: &str) -> Result<Expr>
    ensures { IfOk result (IsOver NUMBER) }
{
    match text {
        "#0+1" => Ok(sum(alloc, first(), number(1))?),
        "10/#1" => Ok(quotient(alloc, number(10), second())?),
        "6/#0" => Ok(quotient(alloc, number(6), first())?),
        "if(#0=0,1,#0/#1)" => Ok(one_or_quotient(alloc)?),
        _ => bail!("no such number"),
    }
}

/// A condition by its text.
pub(crate) fn condition_of(alloc: Global, text: &str) -> Result<Expr>
    ensures { IfOk result (IsOver TRUTH) }
{
    match text {
        "#0>1" => Ok(above(alloc, first(), number(1))?),
        "#1>0 and #0/#1>1" => Ok(where_divided(alloc)?),
        "false and 1/0=1" => Ok(with_fault(alloc, truth(false))?),
        "null and 1/0=1" => Ok(with_fault(alloc, unknown())?),
        _ => bail!("no such condition"),
    }
}

// A condition and one that has a fault.
fn with_fault(alloc: Global, condition: Expr) -> Result<Expr, NoMemory>
    requires { IsOver TRUTH condition }
    ensures { IfOk result (IsOver TRUTH) }
{
    let divided = quotient(alloc, number(1), number(0))?;
    let is_one = equal(alloc, divided, number(1))?;
    both(alloc, condition, is_one)
}

// 1 where the first number is 0, and else the quotient of both.
fn one_or_quotient(alloc: Global) -> Result<Expr, NoMemory>
    ensures { IfOk result (IsOver NUMBER) }
{
    let is_zero = equal(alloc, first(), number(0))?;
    let divided = quotient(alloc, first(), second())?;
    choice(alloc, is_zero, number(1), divided)
}

// Whether the second number is above 0, and then the quotient of both above 1.
fn where_divided(alloc: Global) -> Result<Expr, NoMemory>
    ensures { IfOk result (IsOver TRUTH) }
{
    let is_above = above(alloc, second(), number(0))?;
    let is_high = is_high_quotient(alloc)?;
    both(alloc, is_above, is_high)
}

fn is_high_quotient(alloc: Global) -> Result<Expr, NoMemory>
    ensures { IfOk result (IsOver TRUTH) }
{
    let divided = quotient(alloc, first(), second())?;
    above(alloc, divided, number(1))
}
