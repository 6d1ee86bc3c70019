// Batches of all sizes around a word of bits, with all rows and with some, and two worked rows.
ghost use Rattle.std.specs.Prelude.{◌<◌, IfOk};
ghost use Rattle.eval_batch_tests.specs.Typed.{IsOver};

use crate::batches::{NUMBER, every, mixed, two_rows};
use crate::beside::{agrees, gives};
use crate::calls::TRUTH;
use crate::choices::BYTE;
use crate::samples::{
    first_or_quotient, quotient_above_one, quotient_or_one, seven_or_quotient, small_or_quotient,
    sum_in_byte, three_or_five, three_or_second,
};
use kernels::Stop;
use plan_typed::Expr;
use std::alloc::Global;
use sub_types::{FaultKind, NoMemory, Ty, Value};

// Whether an expression of this type over so many rows, every `step`th of them, is worth what it is at each of these.
fn is_same_over(
    alloc: Global,
    expr: Result<Expr, NoMemory>,
    ty: Ty,
    rows: u64,
    step: u64,
) -> Result<bool, NoMemory>
    requires expr { IfOk expr (IsOver ty) }
    requires step { 0 < step }
{
    let expr = expr?;
    let batch = mixed(alloc, rows)?;
    let on = every(alloc, rows, step)?;
    agrees(alloc, &expr, ty, &batch, &on)
}

fn numbers_agree(alloc: Global, rows: u64, step: u64) -> Result<bool, NoMemory>
    requires { 0 < step }
{
    Ok(
        is_same_over(alloc, quotient_or_one(alloc), NUMBER, rows, step)?
            && is_same_over(alloc, first_or_quotient(alloc), NUMBER, rows, step)?
            && is_same_over(alloc, seven_or_quotient(alloc), NUMBER, rows, step)?,
    )
}

fn truths_agree(alloc: Global, rows: u64, step: u64) -> Result<bool, NoMemory>
    requires { 0 < step }
{
    Ok(
        is_same_over(alloc, quotient_above_one(alloc), TRUTH, rows, step)?
            && is_same_over(alloc, small_or_quotient(alloc), TRUTH, rows, step)?
            && is_same_over(alloc, three_or_five(alloc), TRUTH, rows, step)?
            && is_same_over(alloc, three_or_second(alloc), TRUTH, rows, step)?,
    )
}

fn casts_agree(alloc: Global, rows: u64, step: u64) -> Result<bool, NoMemory>
    requires { 0 < step }
{
    Ok(
        is_same_over(alloc, sum_in_byte(alloc, true), BYTE, rows, step)?
            && is_same_over(alloc, sum_in_byte(alloc, false), BYTE, rows, step)?,
    )
}

fn all_agree(alloc: Global, rows: u64, step: u64) -> Result<bool, NoMemory>
    requires { 0 < step }
{
    Ok(
        numbers_agree(alloc, rows, step)?
            && truths_agree(alloc, rows, step)?
            && casts_agree(alloc, rows, step)?,
    )
}

#[test]
fn batches_beside_each_of_their_rows(rt: HostRuntime) {
    for rows in [0, 1, 63, 64, 65, 1000] {
        assert!(rt; all_agree(rt.alloc(), rows, 1) == Ok(true), "all of {rows}");
        assert!(rt;
            all_agree(rt.alloc(), rows, 3) == Ok(true),
            "some of {rows}"
        );
    }
}

// Over (0, 1) and (2, 0): 1, and then the fault of the second row.
fn stops_at_the_second(alloc: Global) -> Result<bool, NoMemory> {
    let batch = two_rows(alloc, (0, 1), (2, 0))?;
    let on = every(alloc, 2, 1)?;
    let expr = quotient_or_one(alloc)?;
    let stop = Stop::At {
        row: 1,
        kind: FaultKind::DivideByZero,
    };
    gives(alloc, &expr, NUMBER, &batch, &on, &[Value::Int(1)], stop)
}

#[test]
fn an_arm_is_not_evaluated_where_another_is_chosen(rt: HostRuntime) {
    assert!(rt; stops_at_the_second(rt.alloc()) == Ok(true));
}

// Over (4, 0) and (4, 2): false and true, without a fault.
fn hides_the_fault(alloc: Global) -> Result<bool, NoMemory> {
    let batch = two_rows(alloc, (4, 0), (4, 2))?;
    let on = every(alloc, 2, 1)?;
    let expr = quotient_above_one(alloc)?;
    let values = [Value::Bool(false), Value::Bool(true)];
    gives(alloc, &expr, TRUTH, &batch, &on, &values, Stop::Never)
}

#[test]
fn and_ends_at_the_first_false(rt: HostRuntime) {
    assert!(rt; hides_the_fault(rt.alloc()) == Ok(true));
}
