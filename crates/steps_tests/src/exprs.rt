// Random expressions over the two columns, some of which fault at some rows.
ghost use Rattle.std.specs.Prelude.{IfOk, All};
ghost use Rattle.steps_tests.specs.Typed.{IsOver};

use crate::batches::NUMBER;
use crate::calls::{TRUTH, above, both, either, equal, first, number, quotient, second, sum};
use crate::random::Random;
use plan_typed::Expr;
use std::alloc::Global;
use sub_types::NoMemory;

// A column, or a number from 0 to 2.
fn random_leaf(random: &mut Random) -> Expr
    ensures { IsOver NUMBER result }
{
    match random.below(3) {
        0 => first(),
        1 => second(),
        _ => number(random.below(3) as i64),
    }
}

// A column, a number, or the sum or the quotient of two.
pub(crate) fn random_number(alloc: Global, random: &mut Random) -> Result<Expr, NoMemory>
    ensures { IfOk result (IsOver NUMBER) }
{
    let a = random_leaf(random);
    let b = random_leaf(random);
    match random.below(3) {
        0 => Ok(a),
        1 => sum(alloc, a, b),
        _ => quotient(alloc, a, b),
    }
}

// Whether two numbers are equal, or the first is above the second.
fn random_test(alloc: Global, random: &mut Random) -> Result<Expr, NoMemory>
    ensures { IfOk result (IsOver TRUTH) }
{
    let a = random_number(alloc, random)?;
    let b = random_number(alloc, random)?;
    if random.below(2) == 0 {
        equal(alloc, a, b)
    } else {
        above(alloc, a, b)
    }
}

// A test, or two by `and` or `or`.
pub(crate) fn random_condition(alloc: Global, random: &mut Random) -> Result<Expr, NoMemory>
    ensures { IfOk result (IsOver TRUTH) }
{
    let a = random_test(alloc, random)?;
    let b = random_test(alloc, random)?;
    match random.below(3) {
        0 => Ok(a),
        1 => both(alloc, a, b),
        _ => either(alloc, a, b),
    }
}

// Up to three numbers.
pub(crate) fn random_numbers(alloc: Global, random: &mut Random) -> Result<Vec<Expr>, NoMemory>
    ensures { IfOk result (λ exprs. All (IsOver NUMBER) exprs.items) }
{
    let mut exprs = Vec::new(alloc);
    for _ in 0..random.below(4) {
        exprs.push(random_number(alloc, random)?)?;
    }
    Ok(exprs)
}
