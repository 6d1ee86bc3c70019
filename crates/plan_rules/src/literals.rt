// What a literal is worth (Substrait `Expression.Literal`).
ghost use Rattle.std.specs.Prelude.{◌≡◌, ◌≤◌, ◌^◌, ◌&&◌, length, nat_le, nat_lt, unsigned_abs};
ghost use Rattle.std.specs.Str.{is_utf8};
ghost use Rattle.sub_types.specs.Kind.{IsKind};
ghost use Rattle.plan_verdict.specs.Checking.{Agrees};
ghost use Rattle.plan_verdict.specs.Literals as spec;

use crate::refusal::refuse;
use crate::types::{decimal_of, type_in};
use byteorder::{ByteOrder, LittleEndian};
use plan_leaves::RawLiteral;
use plan_verdict::{CheckError, Rule};
use std::alloc::Global;
use sub_types::{ByteList, Kind, Ty, Value};

/// The most bytes of one text or binary value.
const MAX_TEXT: usize = 1_048_576;

/// The value and type of a literal, or its refusal; it stands in the relation with this number.
pub fn literal_in(alloc: Global, relation: u32, raw: &RawLiteral) -> Result<(Value, Ty), CheckError>
    ensures { Agrees result relation (spec.literal_in raw.now) }
{
    match raw {
        RawLiteral::Boolean { value, nullable } => {
            Ok(constant(Kind::Bool, *nullable, Value::Bool(*value)))
        }
        RawLiteral::I8 { value, nullable } => { int_in(relation, 128, Kind::I8, *nullable, *value) }
        RawLiteral::I16 { value, nullable } => {
            int_in(relation, 32768, Kind::I16, *nullable, *value)
        }
        RawLiteral::I32 { value, nullable } => { Ok(int32_of(Kind::I32, *nullable, *value)) }
        RawLiteral::I64 { value, nullable } => { Ok(int64_of(Kind::I64, *nullable, *value)) }
        RawLiteral::String { value, nullable } => {
            text_in(alloc, relation, *nullable, value.text())
        }
        RawLiteral::Binary { value, nullable } => {
            bytes_in(alloc, relation, Kind::Binary, *nullable, value.bytes())
        }
        RawLiteral::Timestamp { value, nullable } => {
            Ok(int64_of(Kind::Timestamp, *nullable, *value))
        }
        RawLiteral::Date { value, nullable } => { Ok(int32_of(Kind::Date, *nullable, *value)) }
        RawLiteral::Decimal {
            value,
            precision,
            scale,
            nullable,
        } => match decimal_of(*precision, *scale) {
            Some(kind) => decimal_in(relation, kind, *nullable, value.bytes()),
            None => refuse(relation, Rule::UnsupportedType),
        },
        RawLiteral::Null { type_, .. } => {
            let ty = type_in(relation, type_)?;
            Ok(constant(ty.kind, true, Value::Null))
        }
        RawLiteral::Missing | RawLiteral::Unknown { .. } => {
            refuse(relation, Rule::UnsupportedType)
        }
    }
}

fn constant(kind: Kind, nullable: bool, value: Value) -> (Value, Ty)
    ensures { result ≡ spec.constant kind nullable value }
{
    (value, Ty { kind, nullable })
}

/// A whole number from minus the bound up to below it.
fn int_in(
    relation: u32,
    bound: u16,
    kind: Kind,
    nullable: bool,
    value: i32,
) -> Result<(Value, Ty), CheckError>
    ensures { Agrees result relation (spec.constant_where (spec.is_within bound value) kind nullable (Value.Int value)) }
{
    if !is_within(bound, value) {
        return refuse(relation, Rule::BadLiteral);
    }
    Ok(constant(kind, nullable, Value::Int(i64::from(value))))
}

fn is_within(bound: u16, value: i32) -> bool
    ensures { result ≡ spec.is_within bound value }
{
    let bound = i32::from(bound);
    -bound <= value && value < bound
}

/// A whole number of 32 bits, which its kind always holds.
fn int32_of(kind: Kind, nullable: bool, value: i32) -> (Value, Ty)
    ensures { spec.constant_where (spec.is_within (2 ^ 31) value) kind nullable (Value.Int value) ≡ Ok result }
{
    constant(kind, nullable, Value::Int(i64::from(value)))
}

/// A whole number of 64 bits, which its kind always holds.
fn int64_of(kind: Kind, nullable: bool, value: i64) -> (Value, Ty)
    ensures { spec.constant_where (spec.is_within (2 ^ 63) value) kind nullable (Value.Int value) ≡ Ok result }
{
    constant(kind, nullable, Value::Int(value))
}

/// A text value.
fn text_in(
    alloc: Global,
    relation: u32,
    nullable: bool,
    value: &str,
) -> Result<(Value, Ty), CheckError>
    ensures { Agrees result relation (spec.constant_where (is_utf8 value.now && nat_le (length value.now) MAX_TEXT) Kind.Text nullable (Value.Bytes value.now)) }
{
    bytes_in(alloc, relation, Kind::Text, nullable, value.as_bytes())
}

/// A text or binary value.
fn bytes_in(
    alloc: Global,
    relation: u32,
    kind: Kind,
    nullable: bool,
    value: &[u8],
) -> Result<(Value, Ty), CheckError>
    ensures { Agrees result relation (spec.constant_where (nat_le (length value.now) MAX_TEXT) kind nullable (Value.Bytes value.now)) }
{
    if value.len() > MAX_TEXT {
        return refuse(relation, Rule::BadLiteral);
    }
    let value = ByteList::of(alloc, value)?;
    Ok(constant(kind, nullable, Value::Bytes(value)))
}

/// A decimal of a kind.
fn decimal_in(
    relation: u32,
    kind: Kind,
    nullable: bool,
    value: &[u8],
) -> Result<(Value, Ty), CheckError>
    requires { IsKind kind }
    ensures { Agrees result relation (spec.constant_where (spec.is_decimal kind value.now) kind nullable (Value.Dec (spec.decimal_number value.now))) }
{
    let Kind::Decimal { precision, .. } = kind else {
        return refuse(relation, Rule::BadLiteral);
    };
    if value.len() != 16 {
        return refuse(relation, Rule::BadLiteral);
    }
    let number = LittleEndian::read_i128(value);
    if !has_digits(precision, number) {
        return refuse(relation, Rule::BadLiteral);
    }
    Ok(constant(kind, nullable, Value::Dec(number)))
}

/// Whether a number has at most so many digits.
fn has_digits(precision: u8, number: i128) -> bool
    requires { precision ≤ 38 }
    ensures { result ≡ nat_lt (unsigned_abs number) (10 ^ precision) }
{
    number.unsigned_abs() < 10u128.pow(u32::from(precision))
}
