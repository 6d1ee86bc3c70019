// Casts (Substrait `Cast`).
ghost use Rattle.std.specs.Prelude.{◌≡◌, ◌*ℤ◌, Ok};
ghost use Rattle.std.specs.Fmt.{signed_decimal};
ghost use Rattle.eval_values.specs.Gives.{Gives};
ghost use Rattle.func_table.specs.Kinds as kind_spec;
ghost use Rattle.plan_denote.specs.Casts as spec;
ghost use Rattle.plan_denote.specs.Decimals as decimals;
ghost use Rattle.sub_types.specs.declared.kind.Kind.TheVariants as kinds;
ghost use Rattle.sub_types.specs.declared.value.Value.TheVariants as values;

use crate::decimals::{decimal_or, digits_between, scale_of};
use crate::digits::number_of;
use crate::error::{EvalError, settled};
use crate::number::times_ten_to;
use crate::whole::is_within;
use func_table::is_equal;
use itoa::Buffer;
use std::alloc::Global;
use sub_types::{ByteList, FaultKind, Kind, Value};

/// The microseconds of a day.
const DAY_MICROSECONDS: i128 = 86_400_000_000;

/// A value of one kind as one of another. Each kind is cast to itself.
pub fn cast(alloc: Global, from: Kind, to: Kind, value: Value) -> Result<Value, EvalError>
    ensures { Gives result (spec.cast from to value) }
{
    if is_equal(from, to) {
        Ok(value)
    } else {
        converted(alloc, from, to, value)
    }
}

fn converted(alloc: Global, from: Kind, to: Kind, value: Value) -> Result<Value, EvalError>
    ensures { Gives result (spec.converted from to value) }
{
    match value {
        Value::Null => Ok(Value::Null),
        Value::Int(n) => converted_number(alloc, from, to, n),
        Value::Dec(n) => settled(converted_decimal(from, to, n)),
        Value::Bytes(text) => settled(converted_text(to, text.bytes())),
        Value::Bool(_) => Ok(Value::Null),
    }
}

fn converted_number(alloc: Global, from: Kind, to: Kind, n: i64) -> Result<Value, EvalError>
    ensures { Gives result (spec.converted from to (values.Int n)) }
{
    match (from, to) {
        (Kind::Date, Kind::Timestamp) => settled(fitting(to, in_microseconds(n))),
        (_, Kind::Decimal { .. }) => settled(converted_to_decimal(to, i128::from(n))),
        (_, Kind::Text) => text_of_number(alloc, n),
        _ => settled(fitting(to, i128::from(n))),
    }
}

/// A whole number as a decimal.
fn converted_to_decimal(to: Kind, n: i128) -> Result<Value, FaultKind>
    ensures { result ≡ decimals.decimal_or FaultKind.BadCast to (decimals.rescaled 0 (kind_spec.scale_of to) n) }
{
    decimal_or(FaultKind::BadCast, to, times_ten_to(n, scale_of(to)))
}

fn converted_decimal(from: Kind, to: Kind, n: i128) -> Result<Value, FaultKind>
    ensures { result ≡ spec.converted from to (values.Dec n) }
{
    decimal_or(
        FaultKind::BadCast,
        to,
        times_ten_to(n, digits_between(from, to)),
    )
}

fn converted_text(to: Kind, text: &[u8]) -> Result<Value, FaultKind>
    ensures { result ≡ spec.converted kinds.Text to (values.Bytes text.now) }
{
    match number_of(text) {
        Some(n) => fitting(to, n),
        None => Err(FaultKind::BadCast),
    }
}

/// The microseconds of so many days.
fn in_microseconds(days: i64) -> i128
    ensures { result ≡ days *ℤ spec.DAY }
{
    i128::from(days) * DAY_MICROSECONDS
}

/// A number of a kind of whole numbers, if it fits.
fn fitting(kind: Kind, n: i128) -> Result<Value, FaultKind>
    ensures { result ≡ spec.fitting kind n }
{
    if is_within(kind, n) {
        Ok(Value::Int(n as i64))
    } else {
        Err(FaultKind::BadCast)
    }
}

fn text_of_number(alloc: Global, n: i64) -> Result<Value, EvalError>
    ensures { Gives result (Ok (values.Bytes (signed_decimal n))) }
{
    let mut buffer = Buffer::new();
    let digits = buffer.format(n);
    Ok(Value::Bytes(ByteList::of(alloc, digits.as_bytes())?))
}
