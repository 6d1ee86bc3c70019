//! The functions of truth values (Substrait functions_boolean.yaml), by whole bytes of values and validity: true, false and
//! null are two bits each.
ghost use Rattle.std.specs.Prelude.{◌≡◌, ℕ, ◌<◌, length, slice_index, map, Ok, true, false, IfOk};
ghost use Rattle.std.specs.Simd.Lanes.{zip2};
ghost use Rattle.sub_types.specs.Nullable.{bool_value};
ghost use Rattle.plan_denote.specs.Logic as spec;
ghost use Rattle.kernels.specs.Truths as truths;

use col_fixed::BoolCol;
use std::alloc::Global;
use sub_types::{Bits, NoMemory};

/// A function of two truth values, or of the first alone.
#[derive(Clone, Copy)]
enum Connective {
    And,
    Or,
    Xor,
    Not,
}

/// `and` of the values at each place: false where one is false, true where both are true, and else null.
pub fn and3(alloc: Global, a: &BoolCol, b: &BoolCol) -> Result<BoolCol, NoMemory>
    requires { length a.now ≡ length b.now }
    ensures { IfOk result (λ column. map bool_value column ≡ zip2 (spec.three_valued false) (map bool_value a.now) (map bool_value b.now)) }
{
    connect(alloc, Connective::And, a, b)
}

/// `or` of the values at each place: true where one is true, false where both are false, and else null.
pub fn or3(alloc: Global, a: &BoolCol, b: &BoolCol) -> Result<BoolCol, NoMemory>
    requires { length a.now ≡ length b.now }
    ensures { IfOk result (λ column. map bool_value column ≡ zip2 (spec.three_valued true) (map bool_value a.now) (map bool_value b.now)) }
{
    connect(alloc, Connective::Or, a, b)
}

/// `xor` of the values at each place, null where one is null.
pub fn xor3(alloc: Global, a: &BoolCol, b: &BoolCol) -> Result<BoolCol, NoMemory>
    requires { length a.now ≡ length b.now }
    ensures { IfOk result (λ column. map (λ truth. Ok (bool_value truth)) column ≡ zip2 spec.xor_of (map bool_value a.now) (map bool_value b.now)) }
{
    connect(alloc, Connective::Xor, a, b)
}

/// The other truth value at each place, null where there is none.
pub fn not3(alloc: Global, a: &BoolCol) -> Result<BoolCol, NoMemory>
    ensures { IfOk result (λ column. map (λ truth. Ok (bool_value truth)) column ≡ map spec.not_of (map bool_value a.now)) }
{
    connect(alloc, Connective::Not, a, a)
}

// Eight values at a time: the bytes of values, and then those of validity.
fn connect(
    alloc: Global,
    connective: Connective,
    a: &BoolCol,
    b: &BoolCol,
) -> Result<BoolCol, NoMemory>
    requires { length a.now ≡ length b.now }
    ensures { IfOk result (λ column. column ≡ zip2 (truths.connected connective) a.now b.now) }
{
    let len = a.len();
    let a_values = a.values().bytes();
    let a_valid = a.validity().bytes();
    let b_values = b.values().bytes();
    let b_valid = b.validity().bytes();
    are_bytes(a_values);
    are_bytes(b_values);
    let values = value_bytes(alloc, connective, a_values, a_valid, b_values, b_valid)?;
    let valid = valid_bytes(alloc, connective, a_values, a_valid, b_values, b_valid)?;
    Ok(BoolCol::from_parts(
        Bits::from_packed(values, len),
        Bits::from_packed(valid, len),
    ))
}

// Each is below 256. It does nothing.
fn are_bytes(bytes: &[u8])
    ensures { (k : ℕ) → slice_index bytes.now k < 256 }
{
    let _ = bytes;
}

// The bytes of values, from those of both columns.
fn value_bytes(
    alloc: Global,
    connective: Connective,
    a: &[u8],
    a_valid: &[u8],
    b: &[u8],
    b_valid: &[u8],
) -> Result<Vec<u8>, NoMemory>
    requires a_valid { length a_valid.now ≡ length a.now }
    requires b { length b.now ≡ length a.now }
    requires b_valid { length b_valid.now ≡ length a.now }
    ensures { IfOk result (λ bytes. truths.AreMade (truths.value_eight connective) a.now a_valid.now b.now b_valid.now bytes.items (length a.now)) }
{
    let mut bytes = vec![in alloc; 0; a.len()]?;
    for i in 0..a.len() {
        bytes[i] = value_eight(connective, a[i], a_valid[i], b[i], b_valid[i]);
    }
    Ok(bytes)
}

// The bytes of validity.
fn valid_bytes(
    alloc: Global,
    connective: Connective,
    a: &[u8],
    a_valid: &[u8],
    b: &[u8],
    b_valid: &[u8],
) -> Result<Vec<u8>, NoMemory>
    requires a_valid { length a_valid.now ≡ length a.now }
    requires b { length b.now ≡ length a.now }
    requires b_valid { length b_valid.now ≡ length a.now }
    ensures { IfOk result (λ bytes. truths.AreMade (truths.valid_eight connective) a.now a_valid.now b.now b_valid.now bytes.items (length a.now)) }
{
    let mut bytes = vec![in alloc; 0; a.len()]?;
    for i in 0..a.len() {
        bytes[i] = valid_eight(connective, a[i], a_valid[i], b[i], b_valid[i]);
    }
    Ok(bytes)
}

// The values of eight places, from a byte of values and a byte of validity of each column.
fn value_eight(connective: Connective, a: u8, a_valid: u8, b: u8, b_valid: u8) -> u8
    ensures { result ≡ truths.value_eight connective a a_valid b b_valid }
{
    match connective {
        Connective::And => a & b,
        Connective::Or => a & a_valid | b & b_valid,
        Connective::Xor => a ^ b,
        Connective::Not => !a,
    }
}

// Which of them are there.
fn valid_eight(connective: Connective, a: u8, a_valid: u8, b: u8, b_valid: u8) -> u8
    ensures { result ≡ truths.valid_eight connective a a_valid b b_valid }
{
    match connective {
        Connective::And => a_valid & b_valid | a_valid & !a | b_valid & !b,
        Connective::Or => a_valid & b_valid | a_valid & a | b_valid & b,
        Connective::Xor => a_valid & b_valid,
        Connective::Not => a_valid,
    }
}
