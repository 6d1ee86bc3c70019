//! The results of all rows at once, as long as none is beyond the range. A null counts as 0 meanwhile.
ghost use Rattle.std.specs.Prelude.{◌≡◌, ◌≤◌, ◌&&◌, ◌||◌, false, length, replicate, int_lt, IfOk, IfSome};
ghost use Rattle.plan_denote.specs.Whole.{is_zero};
ghost use Rattle.kernels.specs.Arith as spec;

use crate::ArithOp;
use crate::arithmetic::exact;
use col_fixed::Native;
use std::alloc::Global;
use sub_types::{Bits, NoMemory};

/// The results at all places, unless one is beyond the range or can't be divided.
pub(crate) fn compute_all<T: Native>(
    alloc: Global,
    op: ArithOp,
    range: (T, T),
    a: &[T],
    b: &[T],
) -> Result<Option<Vec<T>>, NoMemory>
    requires { length a.now ≡ length b.now }
    ensures { IfOk result (λ all. IfSome all (λ values. spec.AreResults op T.number T.zero range.0 range.1 a.now b.now values.items (length a.now))) }
{
    let mut values = Vec::with_capacity(alloc, a.len())?;
    let mut lost = false;
    for i in 0..a.len() {
        let (value, is_lost) = combine(op, a[i], b[i]);
        values.push_reserved(value);
        lost = lost | is_lost | is_beyond(value, range);
    }
    if lost {
        return Ok(None);
    }
    Ok(Some(values))
}

/// The same of all numbers with a constant on their right.
pub(crate) fn compute_all_constant<T: Native>(
    alloc: Global,
    op: ArithOp,
    range: (T, T),
    a: &[T],
    constant: T,
) -> Result<Option<Vec<T>>, NoMemory>
    ensures { IfOk result (λ all. IfSome all (λ values. spec.AreResults op T.number T.zero range.0 range.1 a.now (replicate (length a.now) constant) values.items (length a.now))) }
{
    let mut values = Vec::with_capacity(alloc, a.len())?;
    let mut lost = false;
    for i in 0..a.len() {
        let (value, is_lost) = combine(op, a[i], constant);
        values.push_reserved(value);
        lost = lost | is_lost | is_beyond(value, range);
    }
    if lost {
        return Ok(None);
    }
    Ok(Some(values))
}

/// The results at the places that are valid, unless one of these is beyond the range or can't be divided.
pub(crate) fn compute_valid<T: Native>(
    alloc: Global,
    op: ArithOp,
    range: (T, T),
    a: &[T],
    b: &[T],
    valid: &Bits,
) -> Result<Option<Vec<T>>, NoMemory>
    requires same { length a.now ≡ length b.now }
    requires valid { length valid.now ≡ length a.now }
    ensures { IfOk result (λ all. IfSome all (λ values. spec.AreValid op T.number T.zero range.0 range.1 a.now b.now valid.now values.items)) }
{
    let mut values = Vec::with_capacity(alloc, a.len())?;
    let mut lost = false;
    for i in 0..a.len() {
        let (value, is_lost) = combine(op, a[i], b[i]);
        values.push_reserved(value);
        lost = lost | (is_lost | is_beyond(value, range)) & valid.get(i);
    }
    if lost {
        return Ok(None);
    }
    Ok(Some(values))
}

/// The same with a constant on the right.
pub(crate) fn compute_valid_constant<T: Native>(
    alloc: Global,
    op: ArithOp,
    range: (T, T),
    a: &[T],
    constant: T,
    valid: &Bits,
) -> Result<Option<Vec<T>>, NoMemory>
    requires { length valid.now ≡ length a.now }
    ensures { IfOk result (λ all. IfSome all (λ values. spec.AreValid op T.number T.zero range.0 range.1 a.now (replicate (length a.now) constant) valid.now values.items)) }
{
    let mut values = Vec::with_capacity(alloc, a.len())?;
    let mut lost = false;
    for i in 0..a.len() {
        let (value, is_lost) = combine(op, a[i], constant);
        values.push_reserved(value);
        lost = lost | (is_lost | is_beyond(value, range)) & valid.get(i);
    }
    if lost {
        return Ok(None);
    }
    Ok(Some(values))
}

// The result, and whether it isn't exact.
fn combine<T: Native>(op: ArithOp, x: T, y: T) -> (T, bool)
    ensures { result.1 ≡ false → spec.IsCombined op (T.number x) (T.number y) (T.number result.0) }
{
    match op {
        ArithOp::Add => x.plus(y),
        ArithOp::Subtract => x.minus(y),
        ArithOp::Multiply => x.times(y),
        ArithOp::Divide | ArithOp::Modulus => match divided(op, x, y) {
            Some(n) => narrowed(n),
            None => (x, true),
        },
    }
}

// A quotient or a remainder, unless the divisor is 0 or the quotient has no room.
fn divided<T: Native>(op: ArithOp, x: T, y: T) -> Option<i128>
    ensures { IfSome result (λ n. spec.IsCombined op (T.number x) (T.number y) n) }
{
    if T::SIZE <= 8 {
        return match narrow_divided(op, narrow(x), narrow(y)) {
            Some(n) => Some(i128::from(n)),
            None => None,
        };
    }
    match exact(op, x.wide(), y.wide()) {
        Ok(n) => n,
        Err(_) => None,
    }
}

// A number of at most 64 bits.
fn narrow<T: Native>(x: T) -> i64
    requires { T.SIZE ≤ 8 }
    ensures { result ≡ T.number x }
{
    x.wide() as i64
}

fn narrow_divided(op: ArithOp, x: i64, y: i64) -> Option<i64>
    ensures { IfSome result (λ n. spec.IsCombined op x y n) }
{
    if y == 0 {
        return None;
    }
    match op {
        ArithOp::Divide => x.checked_div(y),
        ArithOp::Modulus => x.checked_rem(y),
        _ => None,
    }
}

// What is left of a number in the bits of the type, and whether that isn't the number.
fn narrowed<T: Native>(n: i128) -> (T, bool)
    ensures { result.1 ≡ false → T.number result.0 ≡ n }
{
    let value = T::wrapped(n);
    (value, value.wide() != n)
}

fn is_beyond<T: Native>(value: T, range: (T, T)) -> bool
    ensures { result ≡ (int_lt (T.number value) (T.number range.0) || int_lt (T.number range.1) (T.number value)) }
{
    (value.wide() < range.0.wide()) | (range.1.wide() < value.wide())
}
