// The functions of whole numbers: the exact result in 128 bits, and then the range of the result's kind.
ghost use Rattle.std.specs.Prelude.{◌≡◌, ◌-◌, ◌^◌, pos, negsuc, ◌≤ℤ◌, ◌+ℤ◌, ◌-ℤ◌, ◌*ℤ◌, int_div, int_rem, if◌then◌else◌};
ghost use Rattle.std.specs.Int.{w8, w16, w32, w64, int_max, int_min, int_wrap, saturate_to_bits};
ghost use Rattle.plan_denote.specs.Whole as spec;

use plan_typed::Overflow;
use sub_types::{FaultKind, Kind, Value};

/// An exact result, in its kind.
pub(crate) fn whole(kind: Kind, mode: Overflow, n: i128) -> Result<Value, FaultKind>
    ensures { result ≡ spec.whole kind mode n }
{
    if is_within(kind, n) {
        Ok(Value::Int(n as i64))
    } else {
        beyond(mode, kind, n)
    }
}

/// The least number of a kind of whole numbers.
fn least(kind: Kind) -> i64
    ensures { result ≡ negsuc (2 ^ spec.bits_of kind - 1) }
{
    match kind {
        Kind::I8 => -0x80,
        Kind::I16 => -0x8000,
        Kind::I32 | Kind::Date => -0x8000_0000,
        _ => i64::MIN,
    }
}

/// The greatest number of a kind of whole numbers.
fn greatest(kind: Kind) -> i64
    ensures { result ≡ pos (2 ^ spec.bits_of kind - 1) }
{
    match kind {
        Kind::I8 => 0x7f,
        Kind::I16 => 0x7fff,
        Kind::I32 | Kind::Date => 0x7fff_ffff,
        _ => i64::MAX,
    }
}

/// Whether a number is one of the kind.
pub(crate) fn is_within(kind: Kind, n: i128) -> bool
    ensures { result ≡ spec.is_within (spec.bits_of kind) n }
{
    i128::from(least(kind)) <= n && n <= i128::from(greatest(kind))
}

/// A number beyond its kind.
fn beyond(mode: Overflow, kind: Kind, n: i128) -> Result<Value, FaultKind>
    ensures { result ≡ spec.beyond mode kind n }
{
    match mode {
        Overflow::Error => Err(FaultKind::Overflow),
        Overflow::Saturate => Ok(Value::Int(saturated(kind, n))),
        Overflow::Silent => Ok(Value::Int(wrapped(kind, n))),
    }
}

/// The nearest number of the kind.
fn saturated(kind: Kind, n: i128) -> i64
    ensures { result ≡ saturate_to_bits (spec.bits_of kind) n }
{
    nearest(least(kind), greatest(kind), n)
}

/// The nearest number of a range.
fn nearest(least: i64, greatest: i64, n: i128) -> i64
    requires { least ≤ℤ greatest }
    ensures { result ≡ int_max least (int_min n greatest) }
{
    n.clamp(i128::from(least), i128::from(greatest)) as i64
}

/// What is left of a number in the bits of the kind.
fn wrapped(kind: Kind, n: i128) -> i64
    ensures { result ≡ spec.wrapped kind n }
{
    match kind {
        Kind::I8 => i64::from(in_8_bits(n)),
        Kind::I16 => i64::from(in_16_bits(n)),
        Kind::I32 | Kind::Date => i64::from(in_32_bits(n)),
        _ => in_64_bits(n),
    }
}

fn in_8_bits(n: i128) -> i8
    ensures { result ≡ int_wrap w8 n }
{
    (n.rem_euclid(1 << 8) as u8).cast_signed()
}

fn in_16_bits(n: i128) -> i16
    ensures { result ≡ int_wrap w16 n }
{
    (n.rem_euclid(1 << 16) as u16).cast_signed()
}

fn in_32_bits(n: i128) -> i32
    ensures { result ≡ int_wrap w32 n }
{
    (n.rem_euclid(1 << 32) as u32).cast_signed()
}

fn in_64_bits(n: i128) -> i64
    ensures { result ≡ int_wrap w64 n }
{
    (n.rem_euclid(1 << 64) as u64).cast_signed()
}

/// The quotient, truncated toward zero.
pub(crate) fn quotient(kind: Kind, mode: Overflow, a: &Value, b: &Value) -> Result<Value, FaultKind>
    ensures { result ≡ spec.quotient kind mode a.now b.now }
{
    match (a, b) {
        (Value::Int(a), Value::Int(b)) => match quotient_of(*a, *b) {
            Some(n) => whole(kind, mode, n),
            None => Err(FaultKind::DivideByZero),
        },
        _ => Ok(Value::Null),
    }
}

/// The remainder, which has the dividend's sign.
pub(crate) fn modulus(kind: Kind, mode: Overflow, a: &Value, b: &Value) -> Result<Value, FaultKind>
    ensures { result ≡ spec.modulus kind mode a.now b.now }
{
    match (a, b) {
        (Value::Int(a), Value::Int(b)) => match remainder_of(*a, *b) {
            Some(n) => whole(kind, mode, n),
            None => Err(FaultKind::DivideByZero),
        },
        _ => Ok(Value::Null),
    }
}

/// The exact quotient, unless the divisor is 0.
fn quotient_of(a: i64, b: i64) -> Option<i128>
    ensures { result ≡ (if spec.is_zero b then None else Some (int_div a b)) }
{
    i128::from(a).checked_div(i128::from(b))
}

/// The exact remainder, unless the divisor is 0.
fn remainder_of(a: i64, b: i64) -> Option<i128>
    ensures { result ≡ (if spec.is_zero b then None else Some (int_rem a b)) }
{
    i128::from(a).checked_rem(i128::from(b))
}

pub(crate) fn negated(kind: Kind, mode: Overflow, value: &Value) -> Result<Value, FaultKind>
    ensures { result ≡ spec.negated kind mode value.now }
{
    match value {
        Value::Int(n) => whole(kind, mode, -i128::from(*n)),
        _ => Ok(Value::Null),
    }
}

pub(crate) fn absolute(kind: Kind, mode: Overflow, value: &Value) -> Result<Value, FaultKind>
    ensures { result ≡ spec.absolute kind mode value.now }
{
    match value {
        Value::Int(n) => whole(kind, mode, i128::from(n.unsigned_abs())),
        _ => Ok(Value::Null),
    }
}

/// The exact sum, difference and product of two numbers of 64 bits.
pub(crate) fn sum_of(a: i64, b: i64) -> i128
    ensures { result ≡ a +ℤ b }
{
    i128::from(a) + i128::from(b)
}

pub(crate) fn difference_of(a: i64, b: i64) -> i128
    ensures { result ≡ a -ℤ b }
{
    i128::from(a) - i128::from(b)
}

pub(crate) fn product_of(a: i64, b: i64) -> i128
    ensures { result ≡ a *ℤ b }
{
    i128::from(a) * i128::from(b)
}
