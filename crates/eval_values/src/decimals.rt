// The functions of decimals, and those that whole numbers and decimals share.
ghost use Rattle.std.specs.Prelude.{◌≡◌, ◌-◌, ◌+ℤ◌, ◌-ℤ◌, ℤ};
ghost use Rattle.eval_values.specs.Number.{IsNumber};
ghost use Rattle.func_table.specs.Kinds as kinds;
ghost use Rattle.plan_denote.specs.Decimals as spec;
ghost use Rattle.sub_types.specs.declared.kind.Kind.TheVariants as kind_of;

use crate::number::{self, MOST_DIGITS, power_of_ten};
use crate::whole::{difference_of, product_of, sum_of, whole};
use plan_typed::Overflow;
use sub_types::{FaultKind, Kind, Value};

/// The decimal of a number, of at most the precision's digits, or else this fault.
pub(crate) fn decimal_or(fault: FaultKind, kind: Kind, n: Option<i128>) -> Result<Value, FaultKind>
    ensures { (exact : ℤ) → IsNumber n exact → result ≡ spec.decimal_or fault kind exact }
{
    let Kind::Decimal { precision, .. } = kind else {
        return Ok(Value::Null);
    };
    match n {
        Some(n) => if_within(fault, precision, n),
        None => Err(fault),
    }
}

fn if_within(fault: FaultKind, precision: u8, n: i128) -> Result<Value, FaultKind>
    ensures { result ≡ spec.decimal_or fault (kind_of.Decimal precision 0) n }
{
    if n.unsigned_abs() < power_of_ten(precision.min(MOST_DIGITS)) {
        Ok(Value::Dec(n))
    } else {
        Err(fault)
    }
}

pub(crate) fn scale_of(kind: Kind) -> u8
    ensures { result ≡ kinds.scale_of kind }
{
    match kind {
        Kind::Decimal { scale, .. } => scale,
        _ => 0,
    }
}

/// By how many digits the scale of one kind is longer than that of another, and 0 where it isn't.
pub(crate) fn digits_between(from: Kind, to: Kind) -> u8
    ensures { result ≡ kinds.scale_of to - kinds.scale_of from }
{
    scale_of(to).saturating_sub(scale_of(from))
}

/// A sum; decimals are brought to the result's scale first.
pub(crate) fn added(
    kind: Kind,
    mode: Overflow,
    given: &[Kind],
    a: &Value,
    b: &Value,
) -> Result<Value, FaultKind>
    ensures { result ≡ spec.added kind mode given.now a.now b.now }
{
    match (a, b) {
        (Value::Int(a), Value::Int(b)) => whole(kind, mode, sum_of(*a, *b)),
        (Value::Dec(a), Value::Dec(b)) => match given {
            [first, second] => decimal_sum(kind, *first, *second, *a, *b),
            _ => Ok(Value::Null),
        },
        _ => Ok(Value::Null),
    }
}

fn decimal_sum(kind: Kind, first: Kind, second: Kind, a: i128, b: i128) -> Result<Value, FaultKind>
    ensures { result ≡ spec.decimal_or FaultKind.Overflow kind ((spec.rescaled (kinds.scale_of first) (kinds.scale_of kind) a) +ℤ (spec.rescaled (kinds.scale_of second) (kinds.scale_of kind) b)) }
{
    let a_by = digits_between(first, kind);
    let b_by = digits_between(second, kind);
    decimal_or(FaultKind::Overflow, kind, number::sum(a, a_by, b, b_by))
}

/// A difference, as `added`.
pub(crate) fn subtracted(
    kind: Kind,
    mode: Overflow,
    given: &[Kind],
    a: &Value,
    b: &Value,
) -> Result<Value, FaultKind>
    ensures { result ≡ spec.subtracted kind mode given.now a.now b.now }
{
    match (a, b) {
        (Value::Int(a), Value::Int(b)) => whole(kind, mode, difference_of(*a, *b)),
        (Value::Dec(a), Value::Dec(b)) => match given {
            [first, second] => decimal_difference(kind, *first, *second, *a, *b),
            _ => Ok(Value::Null),
        },
        _ => Ok(Value::Null),
    }
}

fn decimal_difference(
    kind: Kind,
    first: Kind,
    second: Kind,
    a: i128,
    b: i128,
) -> Result<Value, FaultKind>
    ensures { result ≡ spec.decimal_or FaultKind.Overflow kind ((spec.rescaled (kinds.scale_of first) (kinds.scale_of kind) a) -ℤ (spec.rescaled (kinds.scale_of second) (kinds.scale_of kind) b)) }
{
    let a_by = digits_between(first, kind);
    let b_by = digits_between(second, kind);
    decimal_or(
        FaultKind::Overflow,
        kind,
        number::difference(a, a_by, b, b_by),
    )
}

/// A product; that of decimals has the sum of their scales.
pub(crate) fn product(kind: Kind, mode: Overflow, a: &Value, b: &Value) -> Result<Value, FaultKind>
    ensures { result ≡ spec.product kind mode a.now b.now }
{
    match (a, b) {
        (Value::Int(a), Value::Int(b)) => whole(kind, mode, product_of(*a, *b)),
        (Value::Dec(a), Value::Dec(b)) => decimal_or(
            FaultKind::Overflow,
            kind,
            number::product(*a, *b),
        ),
        _ => Ok(Value::Null),
    }
}
