//! Comparisons of numbers (Substrait functions_comparison.yaml), eight at a time.
ghost use Rattle.std.specs.Prelude.{◌≡◌, ◌<◌, ◌≤◌, ◌*◌, ◌+◌, length, map, min, replicate, Ok, Some, IfOk, is_some};
ghost use Rattle.std.specs.Ordering.{int_cmp};
ghost use Rattle.std.specs.Simd.Lanes.{zip2, mask_l};
ghost use Rattle.sub_types.specs.BitSteps.{both};
ghost use Rattle.sub_types.specs.Nullable.{bool_value};
ghost use Rattle.plan_denote.specs.Logic as spec;
ghost use Rattle.kernels.specs.Numbers as numbers;

use crate::CompareOp;
use col_fixed::{BoolCol, Native, View};
use std::alloc::Global;
use std::cmp::Ordering;
use sub_types::{Bits, NoMemory};

/// The comparison of the numbers at each place, null where one is null. Of decimals both are of the same scale.
pub fn compare<T: Native>(
    alloc: Global,
    op: CompareOp,
    a: View<'_, T>,
    b: View<'_, T>,
) -> Result<BoolCol, NoMemory>
    requires { length a ≡ length b }
    ensures whole { IfOk result (λ column. map (λ truth. Ok (bool_value truth)) column ≡ zip2 (spec.compared (numbers.test_of op)) (numbers.ints T.number a.entry) (numbers.ints T.number b.entry)) }
    ensures decimal { IfOk result (λ column. map (λ truth. Ok (bool_value truth)) column ≡ zip2 (spec.compared (numbers.test_of op)) (numbers.decs T.number a.entry) (numbers.decs T.number b.entry)) }
{
    compare_views(alloc, op, &a, &b)
}

/// The comparison of each number with a constant, null where the number is null.
pub fn compare_constant<T: Native>(
    alloc: Global,
    op: CompareOp,
    a: View<'_, T>,
    constant: T,
) -> Result<BoolCol, NoMemory>
    ensures whole { IfOk result (λ column. map (λ truth. Ok (bool_value truth)) column ≡ map (λ value. spec.compared (numbers.test_of op) value (numbers.int_of T.number (Some constant))) (numbers.ints T.number a.entry)) }
    ensures decimal { IfOk result (λ column. map (λ truth. Ok (bool_value truth)) column ≡ map (λ value. spec.compared (numbers.test_of op) value (numbers.dec_of T.number (Some constant))) (numbers.decs T.number a.entry)) }
{
    compare_view(alloc, op, &a, constant)
}

// The same as one column of truth values.
fn compare_views<T: Native>(
    alloc: Global,
    op: CompareOp,
    a: &View<'_, T>,
    b: &View<'_, T>,
) -> Result<BoolCol, NoMemory>
    requires { length a.now ≡ length b.now }
    ensures { IfOk result (λ column. column ≡ zip2 (numbers.compared T.number op) a.now b.now) }
{
    let tests = compare_values(alloc, op, a.values(), b.values())?;
    let valid = both_valid(alloc, a, b)?;
    Ok(BoolCol::from_parts(tests, valid))
}

fn compare_view<T: Native>(
    alloc: Global,
    op: CompareOp,
    a: &View<'_, T>,
    constant: T,
) -> Result<BoolCol, NoMemory>
    ensures { IfOk result (λ column. column ≡ map (λ value. numbers.compared T.number op value (Some constant)) a.now) }
{
    let tests = compare_values_constant(alloc, op, a.values(), constant)?;
    Ok(BoolCol::from_parts(tests, validity(alloc, a)?))
}

// At which places both values are there.
pub(crate) fn both_valid<T: Native>(
    alloc: Global,
    a: &View<'_, T>,
    b: &View<'_, T>,
) -> Result<Bits, NoMemory>
    requires { length a.now ≡ length b.now }
    ensures { IfOk result (λ bits. bits ≡ both (map is_some a.now) (map is_some b.now)) }
{
    let mut valid = validity(alloc, a)?;
    valid.mask(&validity(alloc, b)?);
    Ok(valid)
}

// Which values are there, from the first bit on.
pub(crate) fn validity<T: Native>(alloc: Global, a: &View<'_, T>) -> Result<Bits, NoMemory>
    ensures { IfOk result (λ bits. bits ≡ map is_some a.now) }
{
    let (bits, from, to) = a.validity();
    bits.part(alloc, from, to)
}

// The comparison at each place.
fn compare_values<T: Native>(
    alloc: Global,
    op: CompareOp,
    a: &[T],
    b: &[T],
) -> Result<Bits, NoMemory>
    requires { length a.now ≡ length b.now }
    ensures { IfOk result (λ bits. bits ≡ zip2 (numbers.holds T.number op) a.now b.now) }
{
    let len = a.len();
    let count = byte_count(len);
    let mut bytes = Vec::with_capacity(alloc, count)?;
    for i in 0..count {
        let (from, to) = (8 * i, end_of_byte(i, len));
        bytes.push(compare_eight(op, &a[from..to], &b[from..to]))?;
    }
    Ok(Bits::from_packed(bytes, len))
}

// The comparison of each with a constant, which is laid out eight times.
fn compare_values_constant<T: Native>(
    alloc: Global,
    op: CompareOp,
    a: &[T],
    constant: T,
) -> Result<Bits, NoMemory>
    ensures { IfOk result (λ bits. bits ≡ map (λ value. numbers.holds T.number op value constant) a.now) }
{
    let len = a.len();
    let count = byte_count(len);
    let constants = eight_times(alloc, constant)?;
    let mut bytes = Vec::with_capacity(alloc, count)?;
    for i in 0..count {
        let (from, to) = (8 * i, end_of_byte(i, len));
        bytes.push(compare_eight(op, &a[from..to], &constants[..to - from]))?;
    }
    Ok(Bits::from_packed(bytes, len))
}

fn eight_times<T: Native>(alloc: Global, value: T) -> Result<Vec<T>, NoMemory>
    ensures { IfOk result (λ values. values.items ≡ replicate 8 value) }
{
    let mut values = Vec::with_capacity(alloc, 8)?;
    for _filled in 0..8usize {
        values.push(value)?;
    }
    Ok(values)
}

// How many bytes so many bits need.
fn byte_count(len: usize) -> usize
    ensures enough { len ≤ 8 * result }
    ensures no_more { 8 * result < len + 8 }
{
    if len % 8 == 0 { len / 8 } else { len / 8 + 1 }
}

// Where the bits of a byte end.
fn end_of_byte(i: usize, len: usize) -> usize
    requires { 8 * i < len }
    ensures { result ≡ min (8 * i + 8) len }
{
    if len - 8 * i < 8 { len } else { 8 * i + 8 }
}

// The comparisons of at most eight values, as the bits of a byte.
fn compare_eight<T: Native>(op: CompareOp, a: &[T], b: &[T]) -> u8
    requires same { length a.now ≡ length b.now }
    requires few { length a.now ≤ 8 }
    ensures { result ≡ mask_l (zip2 (numbers.holds T.number op) a.now b.now) }
{
    if a.len() == 8 {
        compare_lanes(op, a, b)
    } else {
        compare_few(op, a, b)
    }
}

fn compare_lanes<T: Native>(op: CompareOp, a: &[T], b: &[T]) -> u8
    requires a { length a.now ≡ 8 }
    requires b { length b.now ≡ 8 }
    ensures { result ≡ mask_l (zip2 (numbers.holds T.number op) a.now b.now) }
{
    match op {
        CompareOp::Eq => T::equal_of_eight(a, b),
        CompareOp::Ne => !T::equal_of_eight(a, b),
        CompareOp::Lt => T::less_of_eight(a, b),
        CompareOp::Le => !T::less_of_eight(b, a),
        CompareOp::Gt => T::less_of_eight(b, a),
        CompareOp::Ge => !T::less_of_eight(a, b),
    }
}

fn compare_few<T: Native>(op: CompareOp, a: &[T], b: &[T]) -> u8
    requires same { length a.now ≡ length b.now }
    requires few { length a.now ≤ 8 }
    ensures { result ≡ mask_l (zip2 (numbers.holds T.number op) a.now b.now) }
{
    let mut mask = 0;
    for i in 0..a.len() {
        if passes(op, a[i].order(b[i])) {
            mask += 1 << i;
        }
    }
    mask
}

// Whether a comparison holds of two values in this order.
fn passes(op: CompareOp, order: Ordering) -> bool
    ensures { result ≡ numbers.test_of op order }
{
    match op {
        CompareOp::Eq => order.is_eq(),
        CompareOp::Ne => order.is_ne(),
        CompareOp::Lt => order.is_lt(),
        CompareOp::Le => order.is_le(),
        CompareOp::Gt => order.is_gt(),
        CompareOp::Ge => order.is_ge(),
    }
}
