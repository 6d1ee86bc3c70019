// The keys of what holds no expression: truth values, types and values.
ghost use Rattle.std.specs.Prelude.{◌≡◌, ◌<◌, ◌^◌, ◌++◌, ◌∷◌, [], pos, true, OnOk};
ghost use Rattle.std.specs.List.{list_all};
ghost use Rattle.plan_keys.specs.Keys as spec;

use sub_types::{Kind, NoMemory, Ty, Value};

/// A number with this limit has fourteen bytes, and has no room for one more.
const FULL: u128 = 1 << 112;

/// Writes a number at the end.
pub(crate) fn push_number(out: &mut Vec<i128>, number: i128) -> Result<(), NoMemory>
    ensures { OnOk result (out.new.items ≡ out.old.items ++ number ∷ []) }
{
    out.push(number)?;
    Ok(())
}

/// Writes a count at the end.
pub(crate) fn push_count(out: &mut Vec<i128>, count: usize) -> Result<(), NoMemory>
    ensures { OnOk result (out.new.items ≡ out.old.items ++ pos count ∷ []) }
{
    push_number(out, count as i128)
}

pub(crate) fn truth_number(truth: bool) -> i128
    ensures { result ≡ spec.truth_number truth }
{
    if truth { 1 } else { 0 }
}

/// Writes the number of a variant and its type at the end.
pub(crate) fn push_head(out: &mut Vec<i128>, variant: i128, ty: Ty) -> Result<(), NoMemory>
    ensures { OnOk result (out.new.items ≡ out.old.items ++ variant ∷ spec.ty_key ty) }
{
    push_number(out, variant)?;
    push_number(out, truth_number(ty.nullable))?;
    push_kind(out, ty.kind)
}

fn push_kind(out: &mut Vec<i128>, kind: Kind) -> Result<(), NoMemory>
    ensures { OnOk result (out.new.items ≡ out.old.items ++ spec.kind_key kind) }
{
    match kind {
        Kind::Bool => push_number(out, 0),
        Kind::I8 => push_number(out, 1),
        Kind::I16 => push_number(out, 2),
        Kind::I32 => push_number(out, 3),
        Kind::I64 => push_number(out, 4),
        Kind::Text => push_number(out, 5),
        Kind::Binary => push_number(out, 6),
        Kind::Date => push_number(out, 7),
        Kind::Timestamp => push_number(out, 8),
        Kind::Decimal { precision, scale } => push_decimal(out, precision, scale),
    }
}

fn push_decimal(out: &mut Vec<i128>, precision: u8, scale: u8) -> Result<(), NoMemory>
    ensures { OnOk result (out.new.items ≡ out.old.items ++ pos 9 ∷ pos precision ∷ pos scale ∷ []) }
{
    push_number(out, 9)?;
    push_number(out, i128::from(precision))?;
    push_number(out, i128::from(scale))
}

/// Writes the key of a value at the end.
pub(crate) fn push_value(out: &mut Vec<i128>, value: &Value) -> Result<(), NoMemory>
    ensures { OnOk result (out.new.items ≡ out.old.items ++ spec.value_key value.now) }
{
    match value {
        Value::Null => push_number(out, 0),
        Value::Bool(truth) => push_tagged(out, 1, truth_number(*truth)),
        Value::Int(number) => push_tagged(out, 2, i128::from(*number)),
        Value::Dec(number) => push_tagged(out, 3, *number),
        Value::Bytes(bytes) => push_bytes(out, bytes.bytes()),
    }
}

/// Writes the number of a variant and its only number at the end.
fn push_tagged(out: &mut Vec<i128>, variant: i128, number: i128) -> Result<(), NoMemory>
    ensures { OnOk result (out.new.items ≡ out.old.items ++ variant ∷ number ∷ []) }
{
    push_number(out, variant)?;
    push_number(out, number)
}

#[tactic(auto, using(crate::proofs::PackLaws::key_of_bytes))]
fn push_bytes(out: &mut Vec<i128>, bytes: &[u8]) -> Result<(), NoMemory>
    ensures { OnOk result (out.new.items ≡ out.old.items ++ spec.bytes_key bytes.now) }
{
    push_number(out, 4)?;
    push_count(out, bytes.len())?;
    out.reserve(bytes.len() / 14 + 2)?;
    push_packed(out, bytes)
}

/// Writes a number of several bytes at the end.
fn push_digits(out: &mut Vec<i128>, number: u128) -> Result<(), NoMemory>
    requires { number < 2 ^ 127 }
    ensures { OnOk result (out.new.items ≡ out.old.items ++ pos number ∷ []) }
{
    push_number(out, number as i128)
}

/// Writes bytes as digits, fourteen in each number.
fn push_packed(out: &mut Vec<i128>, bytes: &[u8]) -> Result<(), NoMemory>
    ensures packed { OnOk result (out.new.items ≡ out.old.items ++ spec.packed 1 0 bytes.now) }
    ensures bytes { OnOk result (list_all spec.is_byte bytes.now ≡ true) }
{
    let mut limit: u128 = 1;
    let mut number: u128 = 0;
    for byte in bytes {
        if limit < FULL {
            limit *= 256;
            number = number * 256 + u128::from(*byte);
        } else {
            push_digits(out, number)?;
            limit = 256;
            number = u128::from(*byte);
        }
    }
    push_last(out, number)
}

/// Writes the last number of several bytes at the end.
fn push_last(out: &mut Vec<i128>, number: u128) -> Result<(), NoMemory>
    requires { number < 2 ^ 127 }
    ensures { OnOk result (out.new.items ≡ out.old.items ++ pos number ∷ pos 0 ∷ []) }
{
    push_digits(out, number)?;
    push_number(out, 0)
}
