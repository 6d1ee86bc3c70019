//! Arithmetic on numbers (Substrait functions_arithmetic.yaml and functions_arithmetic_decimal.yaml), row by row up to the
//! first fault.
ghost use Rattle.std.specs.Prelude.{◌≡◌, ℕ, false, [], ◌∷◌, length, replicate, map, option_map, slice_index_or, Some, None, IfOk, IfSome, FitsSigned};
ghost use Rattle.std.specs.List.{range_with_len};
ghost use Rattle.sub_types.specs.declared.fault.FaultKind.TheVariants as faults;
ghost use Rattle.sub_types.specs.declared.kind.Kind.{Kind};
ghost use Rattle.sub_types.specs.declared.kind.Kind.TheVariants as kinds;
ghost use Rattle.plan_denote.specs.Calls as calls;
ghost use Rattle.kernels.specs.Numbers as numbers;
ghost use Rattle.kernels.specs.Arith as spec;
ghost use Rattle.kernels.specs.Until.{Until, until};

use crate::all_rows::{compute_all, compute_all_constant, compute_valid, compute_valid_constant};
use crate::comparison::{both_valid, validity};
use crate::{ArithOp, Stop};
use col_fixed::{Fixed, FixedBuilder, Native, View};
use plan_typed::Overflow;
use std::alloc::Global;
use sub_types::{Bits, FaultKind, NoMemory};

/// The result at each place before the first fault, null where one of the two is null, and that fault. `least` and
/// `greatest` bound the kind of the results; of decimals all are of one scale. A result beyond the kind is a fault, the nearest
/// number or what is left in the type's bits, as the mode says, and a fault in each mode where the numbers have 128 bits.
pub fn arith<T: Native>(
    alloc: Global,
    op: ArithOp,
    mode: Overflow,
    least: T,
    greatest: T,
    a: View<'_, T>,
    b: View<'_, T>,
) -> Result<(Fixed<T>, Stop), NoMemory>
    requires { length a ≡ length b }
    ensures whole { IfOk result (λ answer. (kind : Kind) → spec.IsWholeKind kind T.width (T.number least) (T.number greatest) →
        until (λ i. calls.binary (spec.func_of op) kind mode (kind ∷ kind ∷ []) (numbers.int_of T.number (slice_index_or a.entry i None)) (numbers.int_of T.number (slice_index_or b.entry i None))) (range_with_len 0 (length a.entry))
        ≡ record { values = numbers.ints T.number answer.0; stop = answer.1 }) }
    ensures decimal { IfOk result (λ answer. (precision scale : ℕ) → spec.IsDecimalKind precision T.width (T.number least) (T.number greatest) → spec.divides op ≡ false →
        until (λ i. calls.binary (spec.func_of op) (kinds.Decimal precision scale) mode (kinds.Decimal precision scale ∷ kinds.Decimal precision scale ∷ []) (numbers.dec_of T.number (slice_index_or a.entry i None)) (numbers.dec_of T.number (slice_index_or b.entry i None))) (range_with_len 0 (length a.entry))
        ≡ record { values = numbers.decs T.number answer.0; stop = answer.1 }) }
{
    let column = compute_columns(alloc, op, mode, (least, greatest), &a, &b)?;
    Ok(column)
}

/// The same of each number and a constant on its right.
pub fn arith_constant<T: Native>(
    alloc: Global,
    op: ArithOp,
    mode: Overflow,
    least: T,
    greatest: T,
    a: View<'_, T>,
    constant: T,
) -> Result<(Fixed<T>, Stop), NoMemory>
    ensures whole { IfOk result (λ answer. (kind : Kind) → spec.IsWholeKind kind T.width (T.number least) (T.number greatest) →
        until (λ i. calls.binary (spec.func_of op) kind mode (kind ∷ kind ∷ []) (numbers.int_of T.number (slice_index_or a.entry i None)) (numbers.int_of T.number (Some constant))) (range_with_len 0 (length a.entry))
        ≡ record { values = numbers.ints T.number answer.0; stop = answer.1 }) }
    ensures decimal { IfOk result (λ answer. (precision scale : ℕ) → spec.IsDecimalKind precision T.width (T.number least) (T.number greatest) → spec.divides op ≡ false →
        until (λ i. calls.binary (spec.func_of op) (kinds.Decimal precision scale) mode (kinds.Decimal precision scale ∷ kinds.Decimal precision scale ∷ []) (numbers.dec_of T.number (slice_index_or a.entry i None)) (numbers.dec_of T.number (Some constant))) (range_with_len 0 (length a.entry))
        ≡ record { values = numbers.decs T.number answer.0; stop = answer.1 }) }
{
    let column = compute_column(alloc, op, mode, (least, greatest), &a, constant)?;
    Ok(column)
}

// All rows at once, and row by row where one of them is beyond the range, whether or not it is null.
fn compute_columns<T: Native>(
    alloc: Global,
    op: ArithOp,
    mode: Overflow,
    range: (T, T),
    a: &View<'_, T>,
    b: &View<'_, T>,
) -> Result<(Fixed<T>, Stop), NoMemory>
    requires { length a.now ≡ length b.now }
    ensures { IfOk result (λ answer. until (λ i. spec.row op mode T.width (T.number range.0) (T.number range.1) (option_map T.number (slice_index_or a.now i None)) (option_map T.number (slice_index_or b.now i None))) (range_with_len 0 (length a.now))
        ≡ record { values = map (option_map T.number) answer.0; stop = answer.1 }) }
{
    let valid = both_valid(alloc, a, b)?;
    let Some(values) = computed(alloc, op, range, a.values(), b.values(), &valid)? else {
        return compute_rows(alloc, op, mode, range, a, b);
    };
    Ok((Fixed::from_parts(values, valid), Stop::Never))
}

// The results at the valid places, unless one of these is beyond the range or can't be divided. A null's 0 divides nothing, so
// a division looks at which are valid; elsewhere a null that is beyond the range is rare, and looking costs more.
fn computed<T: Native>(
    alloc: Global,
    op: ArithOp,
    range: (T, T),
    a: &[T],
    b: &[T],
    valid: &Bits,
) -> Result<Option<Vec<T>>, NoMemory>
    requires same { length a.now ≡ length b.now }
    requires valid { length valid.now ≡ length a.now }
    ensures { IfOk result (λ all. IfSome all (λ values. spec.AreValid op T.number T.zero range.0 range.1 a.now b.now valid.now values.items)) }
{
    if is_division(op) {
        compute_valid(alloc, op, range, a, b, valid)
    } else {
        compute_all(alloc, op, range, a, b)
    }
}

fn is_division(op: ArithOp) -> bool
    ensures { result ≡ spec.divides op }
{
    matches!(op, ArithOp::Divide | ArithOp::Modulus)
}

fn compute_rows<T: Native>(
    alloc: Global,
    op: ArithOp,
    mode: Overflow,
    range: (T, T),
    a: &View<'_, T>,
    b: &View<'_, T>,
) -> Result<(Fixed<T>, Stop), NoMemory>
    requires { length a.now ≡ length b.now }
    ensures { IfOk result (λ answer. until (λ i. spec.row op mode T.width (T.number range.0) (T.number range.1) (option_map T.number (slice_index_or a.now i None)) (option_map T.number (slice_index_or b.now i None))) (range_with_len 0 (length a.now))
        ≡ record { values = map (option_map T.number) answer.0; stop = answer.1 }) }
{
    let mut column = FixedBuilder::new(alloc);
    for i in 0..a.len() {
        match compute_row(op, mode, range, a.value_at(i), b.value_at(i)) {
            Ok(value) => column.push(value)?,
            Err(kind) => return Ok((
                column.finish(),
                Stop::At {
                    row: i as u64,
                    kind,
                },
            )),
        }
    }
    Ok((column.finish(), Stop::Never))
}

// All rows at once, and row by row where one of them is beyond the range, whether or not it is null.
fn compute_column<T: Native>(
    alloc: Global,
    op: ArithOp,
    mode: Overflow,
    range: (T, T),
    a: &View<'_, T>,
    constant: T,
) -> Result<(Fixed<T>, Stop), NoMemory>
    ensures { IfOk result (λ answer. until (λ i. spec.row op mode T.width (T.number range.0) (T.number range.1) (option_map T.number (slice_index_or a.now i None)) (Some (T.number constant))) (range_with_len 0 (length a.now))
        ≡ record { values = map (option_map T.number) answer.0; stop = answer.1 }) }
{
    let valid = validity(alloc, a)?;
    let Some(values) = computed_constant(alloc, op, range, a.values(), constant, &valid)? else {
        return compute_rows_constant(alloc, op, mode, range, a, constant);
    };
    Ok((Fixed::from_parts(values, valid), Stop::Never))
}

// The same with a constant on the right.
fn computed_constant<T: Native>(
    alloc: Global,
    op: ArithOp,
    range: (T, T),
    a: &[T],
    constant: T,
    valid: &Bits,
) -> Result<Option<Vec<T>>, NoMemory>
    requires { length valid.now ≡ length a.now }
    ensures { IfOk result (λ all. IfSome all (λ values. spec.AreValid op T.number T.zero range.0 range.1 a.now (replicate (length a.now) constant) valid.now values.items)) }
{
    if is_division(op) {
        compute_valid_constant(alloc, op, range, a, constant, valid)
    } else {
        compute_all_constant(alloc, op, range, a, constant)
    }
}

fn compute_rows_constant<T: Native>(
    alloc: Global,
    op: ArithOp,
    mode: Overflow,
    range: (T, T),
    a: &View<'_, T>,
    constant: T,
) -> Result<(Fixed<T>, Stop), NoMemory>
    ensures { IfOk result (λ answer. until (λ i. spec.row op mode T.width (T.number range.0) (T.number range.1) (option_map T.number (slice_index_or a.now i None)) (Some (T.number constant))) (range_with_len 0 (length a.now))
        ≡ record { values = map (option_map T.number) answer.0; stop = answer.1 }) }
{
    let mut column = FixedBuilder::new(alloc);
    for i in 0..a.len() {
        match compute_row(op, mode, range, a.value_at(i), Some(constant)) {
            Ok(value) => column.push(value)?,
            Err(kind) => return Ok((
                column.finish(),
                Stop::At {
                    row: i as u64,
                    kind,
                },
            )),
        }
    }
    Ok((column.finish(), Stop::Never))
}

fn compute_row<T: Native>(
    op: ArithOp,
    mode: Overflow,
    range: (T, T),
    x: Option<T>,
    y: Option<T>,
) -> Result<Option<T>, FaultKind>
    ensures { spec.rows_number T.number result ≡ spec.row op mode T.width (T.number range.0) (T.number range.1) (option_map T.number x) (option_map T.number y) }
{
    match (x, y) {
        (Some(x), Some(y)) => match compute(op, mode, range, x, y) {
            Ok(value) => Ok(Some(value)),
            Err(kind) => Err(kind),
        },
        _ => Ok(None),
    }
}

fn compute<T: Native>(
    op: ArithOp,
    mode: Overflow,
    range: (T, T),
    x: T,
    y: T,
) -> Result<T, FaultKind>
    ensures { spec.number_of T.number result ≡ spec.computed op mode T.width (T.number range.0) (T.number range.1) (T.number x) (T.number y) }
{
    match exact(op, x.wide(), y.wide()) {
        Ok(Some(n)) => settle(mode, range, n),
        Ok(None) => Err(beyond_all(range)),
        Err(kind) => Err(kind),
    }
}

// The exact result, unless the divisor is 0 or 128 bits don't hold it.
pub(crate) fn exact(op: ArithOp, x: i128, y: i128) -> Result<Option<i128>, FaultKind>
    ensures { spec.IsExact result op x y }
{
    match op {
        ArithOp::Add => Ok(x.checked_add(y)),
        ArithOp::Subtract => Ok(x.checked_sub(y)),
        ArithOp::Multiply => Ok(x.checked_mul(y)),
        ArithOp::Divide if y == 0 => Err(FaultKind::DivideByZero),
        ArithOp::Divide => Ok(x.checked_div(y)),
        ArithOp::Modulus if y == 0 => Err(FaultKind::DivideByZero),
        ArithOp::Modulus => Ok(Some(x.wrapping_rem(y))),
    }
}

// What is beyond 128 bits is beyond each range.
fn beyond_all<T: Native>(range: (T, T)) -> FaultKind
    ensures kind { result ≡ faults.Overflow }
    ensures least { FitsSigned T.width (T.number range.0) }
    ensures greatest { FitsSigned T.width (T.number range.1) }
{
    let _ = (range.0.wide(), range.1.wide());
    FaultKind::Overflow
}

// A number as it is, or where it is beyond the range as the mode says.
fn settle<T: Native>(mode: Overflow, range: (T, T), n: i128) -> Result<T, FaultKind>
    ensures { spec.number_of T.number result ≡ spec.settled mode T.width (T.number range.0) (T.number range.1) n }
{
    if n < range.0.wide() {
        beyond(mode, range.0, n)
    } else if range.1.wide() < n {
        beyond(mode, range.1, n)
    } else {
        Ok(T::wrapped(n))
    }
}

// What stands for a number beyond an end of the range.
fn beyond<T: Native>(mode: Overflow, end: T, n: i128) -> Result<T, FaultKind>
    ensures { spec.number_of T.number result ≡ spec.beyond mode T.width (T.number end) n }
{
    if T::SIZE > 8 {
        return Err(FaultKind::Overflow);
    }
    match mode {
        Overflow::Error => Err(FaultKind::Overflow),
        Overflow::Saturate => Ok(end),
        Overflow::Silent => Ok(T::wrapped(n)),
    }
}
