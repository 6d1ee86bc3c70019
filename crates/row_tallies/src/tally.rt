// What a measure makes of the values it takes of a group.
ghost use Rattle.std.specs.Prelude.{◌≡◌, ◌-◌, ◌^◌, ℤ, pos, negsuc, IfOk, length};
ghost use Rattle.std.specs.Ordering.{is_gt, is_lt};
ghost use Rattle.eval_values.specs.Number.{IsNumber};
ghost use Rattle.plan_denote.specs.Tally as spec;
ghost use Rattle.plan_denote.specs.Whole as whole_spec;
ghost use Rattle.plan_typed.specs.declared.expr.Func.TheVariants as funcs;
ghost use Rattle.plan_typed.specs.declared.expr.Overflow.TheVariants as modes;
ghost use Rattle.sub_types.specs.declared.kind.Kind.TheVariants as kinds;
ghost use Rattle.sub_types.specs.declared.value.Value.TheVariants as values;

use crate::total::total_of;
use eval_values::{compare, is_null};
use plan_leaves::Items;
use plan_typed::Func;
use std::alloc::Global;
use sub_types::{FaultKind, Kind, NoMemory, Value};

/// The values that aren't null.
pub fn not_null(alloc: Global, values: Items<Value>) -> Result<Items<Value>, NoMemory>
    ensures { IfOk result (λ kept. kept ≡ spec.not_null values) }
{
    let mut kept = Items::new(alloc);
    for value in values.into_vec() {
        if !is_null(&value) {
            kept.push(value)?;
        }
    }
    Ok(kept)
}

/// What a measure of a function gives for these values, none of which is null.
pub fn final_of(func: Func, kind: Kind, members: Items<Value>) -> Result<Value, FaultKind>
    ensures { result ≡ spec.final func kind (spec.tally_of members) }
{
    match func {
        Func::Count => Ok(count_of(members.as_slice())),
        Func::Sum => sum_of(kind, members.as_slice()),
        Func::Avg => average_of(kind, members.as_slice()),
        Func::Min => Ok(least_of(members)),
        Func::Max => Ok(greatest_of(members)),
        _ => Ok(Value::Null),
    }
}

fn count_of(members: &[Value]) -> Value
    ensures { result ≡ values.Int (pos (length members.now)) }
{
    Value::Int(members.len() as i64)
}

/// The sum in the result's kind, null where there are no values.
fn sum_of(kind: Kind, members: &[Value]) -> Result<Value, FaultKind>
    ensures { result ≡ spec.if_any (spec.tally_of members.now) (spec.in_kind kind (spec.total_of members.now)) }
{
    if members.is_empty() {
        return Ok(Value::Null);
    }
    in_kind(kind, total_of(members).narrow())
}

/// The average in the result's kind, null where there are no values.
fn average_of(kind: Kind, members: &[Value]) -> Result<Value, FaultKind>
    ensures { result ≡ spec.final funcs.Avg kind (spec.tally_of members.now) }
{
    if members.is_empty() {
        return Ok(Value::Null);
    }
    let average = total_of(members).divided_by(members.len() as u128);
    in_kind(kind, average.narrow())
}

/// The least value, null where there are none.
fn least_of(members: Items<Value>) -> Value
    ensures { result ≡ spec.best_of is_lt members }
{
    let mut members = members;
    let mut least = Value::Null;
    while let Some(value) = members.pop() {
        least = lesser(value, least);
    }
    least
}

/// The lesser of a value and another, which may be null.
fn lesser(value: Value, other: Value) -> Value
    ensures { result ≡ spec.better_of is_lt value other }
{
    if !is_null(&other) && compare(&other, &value).is_lt() {
        other
    } else {
        value
    }
}

/// The greatest value, null where there are none.
fn greatest_of(members: Items<Value>) -> Value
    ensures { result ≡ spec.best_of is_gt members }
{
    let mut members = members;
    let mut greatest = Value::Null;
    while let Some(value) = members.pop() {
        greatest = greater(value, greatest);
    }
    greatest
}

/// The greater of a value and another, which may be null.
fn greater(value: Value, other: Value) -> Value
    ensures { result ≡ spec.better_of is_gt value other }
{
    if !is_null(&other) && compare(&other, &value).is_gt() {
        other
    } else {
        value
    }
}

/// An exact number in the result's kind.
fn in_kind(kind: Kind, n: Option<i128>) -> Result<Value, FaultKind>
    ensures { (exact : ℤ) → IsNumber n exact → result ≡ spec.in_kind kind exact }
{
    let Some(n) = n else {
        return Err(FaultKind::Overflow);
    };
    match kind {
        Kind::Decimal { precision, .. } => decimal(precision, n),
        _ => whole(kind, n),
    }
}

/// The most digits of a decimal.
const MOST_DIGITS: u8 = 38;

fn decimal(precision: u8, n: i128) -> Result<Value, FaultKind>
    ensures { (scale : _) → result ≡ spec.in_kind (kinds.Decimal precision scale) n }
{
    if n.unsigned_abs() < 10u128.pow(u32::from(precision.min(MOST_DIGITS))) {
        Ok(Value::Dec(n))
    } else {
        Err(FaultKind::Overflow)
    }
}

fn whole(kind: Kind, n: i128) -> Result<Value, FaultKind>
    ensures { result ≡ whole_spec.whole kind modes.Error n }
{
    if i128::from(least(kind)) <= n && n <= i128::from(greatest(kind)) {
        Ok(Value::Int(n as i64))
    } else {
        Err(FaultKind::Overflow)
    }
}

/// The least and the greatest number of a kind of whole numbers.
fn least(kind: Kind) -> i64
    ensures { result ≡ negsuc (2 ^ whole_spec.bits_of kind - 1) }
{
    match kind {
        Kind::I8 => i64::from(i8::MIN),
        Kind::I16 => i64::from(i16::MIN),
        Kind::I32 | Kind::Date => i64::from(i32::MIN),
        _ => i64::MIN,
    }
}

fn greatest(kind: Kind) -> i64
    ensures { result ≡ pos (2 ^ whole_spec.bits_of kind - 1) }
{
    match kind {
        Kind::I8 => i64::from(i8::MAX),
        Kind::I16 => i64::from(i16::MAX),
        Kind::I32 | Kind::Date => i64::from(i32::MAX),
        _ => i64::MAX,
    }
}
