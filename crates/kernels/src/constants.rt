//! Numbers with a constant that may be null, on either side.
ghost use Rattle.std.specs.Prelude.{◌≡◌, ℕ, false, [], ◌∷◌, length, map, replicate, slice_index_or, Ok, None, IfOk};
ghost use Rattle.std.specs.List.{range_with_len};
ghost use Rattle.sub_types.specs.Nullable.{bool_value};
ghost use Rattle.sub_types.specs.declared.kind.Kind.{Kind};
ghost use Rattle.sub_types.specs.declared.kind.Kind.TheVariants as kinds;
ghost use Rattle.plan_denote.specs.Calls as calls;
ghost use Rattle.plan_denote.specs.Logic as logic;
ghost use Rattle.kernels.specs.Numbers as numbers;
ghost use Rattle.kernels.specs.Arith as spec;
ghost use Rattle.kernels.specs.Until.{Until, until};

use crate::{ArithOp, CompareOp, Stop, arith, arith_constant, compare_constant};
use col_fixed::{BoolCol, Fixed, Native, View};
use plan_typed::Overflow;
use std::alloc::Global;
use sub_types::NoMemory;

/// The comparison of each number with a constant on its right, null where one of the two is.
pub fn compare_with<T: Native>(
    alloc: Global,
    op: CompareOp,
    a: View<'_, T>,
    constant: Option<T>,
) -> Result<BoolCol, NoMemory>
    ensures whole { IfOk result (λ column. map (λ truth. Ok (bool_value truth)) column ≡ map (λ value. logic.compared (numbers.test_of op) value (numbers.int_of T.number constant)) (numbers.ints T.number a.entry)) }
    ensures decimal { IfOk result (λ column. map (λ truth. Ok (bool_value truth)) column ≡ map (λ value. logic.compared (numbers.test_of op) value (numbers.dec_of T.number constant)) (numbers.decs T.number a.entry)) }
{
    match constant {
        Some(constant) => compare_constant(alloc, op, a, constant),
        None => BoolCol::constant(alloc, None, a.len()),
    }
}

/// The comparison of a constant with each number on its right, null where one of the two is.
pub fn compare_from<T: Native>(
    alloc: Global,
    op: CompareOp,
    constant: Option<T>,
    b: View<'_, T>,
) -> Result<BoolCol, NoMemory>
    ensures whole { IfOk result (λ column. map (λ truth. Ok (bool_value truth)) column ≡ map (λ value. logic.compared (numbers.test_of op) (numbers.int_of T.number constant) value) (numbers.ints T.number b.entry)) }
    ensures decimal { IfOk result (λ column. map (λ truth. Ok (bool_value truth)) column ≡ map (λ value. logic.compared (numbers.test_of op) (numbers.dec_of T.number constant) value) (numbers.decs T.number b.entry)) }
{
    compare_with(alloc, turned(op), b, constant)
}

// The comparison that holds of two values where this one holds of them the other way round.
fn turned(op: CompareOp) -> CompareOp
    ensures { result ≡ numbers.turned op }
{
    match op {
        CompareOp::Eq => CompareOp::Eq,
        CompareOp::Ne => CompareOp::Ne,
        CompareOp::Lt => CompareOp::Gt,
        CompareOp::Le => CompareOp::Ge,
        CompareOp::Gt => CompareOp::Lt,
        CompareOp::Ge => CompareOp::Le,
    }
}

/// The result of each number and a constant on its right up to the first fault, null where one of the two is, and that
/// fault, as `arith` has them.
pub fn arith_with<T: Native>(
    alloc: Global,
    op: ArithOp,
    mode: Overflow,
    least: T,
    greatest: T,
    a: View<'_, T>,
    constant: Option<T>,
) -> Result<(Fixed<T>, Stop), NoMemory>
    ensures whole { IfOk result (λ answer. (kind : Kind) → spec.IsWholeKind kind T.width (T.number least) (T.number greatest) →
        until (λ i. calls.binary (spec.func_of op) kind mode (kind ∷ kind ∷ []) (numbers.int_of T.number (slice_index_or a.entry i None)) (numbers.int_of T.number constant)) (range_with_len 0 (length a.entry))
        ≡ record { values = numbers.ints T.number answer.0; stop = answer.1 }) }
    ensures decimal { IfOk result (λ answer. (precision scale : ℕ) → spec.IsDecimalKind precision T.width (T.number least) (T.number greatest) → spec.divides op ≡ false →
        until (λ i. calls.binary (spec.func_of op) (kinds.Decimal precision scale) mode (kinds.Decimal precision scale ∷ kinds.Decimal precision scale ∷ []) (numbers.dec_of T.number (slice_index_or a.entry i None)) (numbers.dec_of T.number constant)) (range_with_len 0 (length a.entry))
        ≡ record { values = numbers.decs T.number answer.0; stop = answer.1 }) }
{
    match constant {
        Some(constant) => arith_constant(alloc, op, mode, least, greatest, a, constant),
        None => null_rows(alloc, a.len()),
    }
}

// Null at each of so many places, and no stop.
fn null_rows<T: Native>(alloc: Global, n: usize) -> Result<(Fixed<T>, Stop), NoMemory>
    ensures values { IfOk result (λ answer. answer.0 ≡ replicate n None) }
    ensures stop { IfOk result (λ answer. answer.1 ≡ Stop.Never) }
{
    let column = Fixed::constant(alloc, None, n)?;
    Ok((column, Stop::Never))
}

/// The same of a constant and each number on its right.
pub fn arith_from<T: Native>(
    alloc: Global,
    op: ArithOp,
    mode: Overflow,
    least: T,
    greatest: T,
    constant: Option<T>,
    b: View<'_, T>,
) -> Result<(Fixed<T>, Stop), NoMemory>
    ensures whole { IfOk result (λ answer. (kind : Kind) → spec.IsWholeKind kind T.width (T.number least) (T.number greatest) →
        until (λ i. calls.binary (spec.func_of op) kind mode (kind ∷ kind ∷ []) (numbers.int_of T.number constant) (numbers.int_of T.number (slice_index_or b.entry i None))) (range_with_len 0 (length b.entry))
        ≡ record { values = numbers.ints T.number answer.0; stop = answer.1 }) }
    ensures decimal { IfOk result (λ answer. (precision scale : ℕ) → spec.IsDecimalKind precision T.width (T.number least) (T.number greatest) → spec.divides op ≡ false →
        until (λ i. calls.binary (spec.func_of op) (kinds.Decimal precision scale) mode (kinds.Decimal precision scale ∷ kinds.Decimal precision scale ∷ []) (numbers.dec_of T.number constant) (numbers.dec_of T.number (slice_index_or b.entry i None))) (range_with_len 0 (length b.entry))
        ≡ record { values = numbers.decs T.number answer.0; stop = answer.1 }) }
{
    let constants = Fixed::constant(alloc, constant, b.len())?;
    let column = arith(alloc, op, mode, least, greatest, constants.view(), b)?;
    Ok(column)
}
