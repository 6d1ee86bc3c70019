// Arithmetic on arguments.
ghost use Rattle.std.specs.Prelude.{◌≡◌, ◌<◌, ◌∷◌, [], ℕ, length, replicate, false, true, IfOk, IfSome};
ghost use Rattle.std.specs.List.{range_with_len};
ghost use Rattle.sub_types.specs.Value.{InKind};
ghost use Rattle.sub_types.specs.declared.kind.Kind.{Kind as kind_of};
ghost use Rattle.sub_types.specs.declared.kind.Kind.TheVariants as kinds;
ghost use Rattle.plan_denote.specs.Calls.{binary};
ghost use Rattle.kernels.specs.Arith as arith_spec;
ghost use Rattle.kernels.specs.Numbers.{decs, ints};
ghost use Rattle.kernels.specs.Until.{until};
ghost use Rattle.call_kernels.specs.Made.{IsMade, at_places};
ghost use Rattle.call_kernels.specs.Numbers.{listed};
ghost use Rattle.call_kernels.specs.Operand.{values};

use crate::Operand;
use crate::decimals::arith_decimals;
use crate::numbers::{Numbers, i8_numbers, i16_numbers, i32_numbers, i64_numbers};
use batch::{Column, ColumnData};
use col_fixed::{Fixed, Native};
use kernels::{ArithOp, Stop, arith, arith_from, arith_with};
use plan_typed::{Func, Overflow};
use std::alloc::Global;
use sub_types::{Kind, NoMemory, Ty};

/// The operation of arithmetic that a function is.
pub(crate) fn operation_of(func: Func) -> Option<ArithOp>
    ensures { IfSome result (λ op. func ≡ arith_spec.func_of op) }
{
    match func {
        Func::Add => Some(ArithOp::Add),
        Func::Subtract => Some(ArithOp::Subtract),
        Func::Multiply => Some(ArithOp::Multiply),
        Func::Divide => Some(ArithOp::Divide),
        Func::Modulus => Some(ArithOp::Modulus),
        _ => None,
    }
}

/// The results up to the first fault, and that fault, where both arguments are whole numbers of the result's kind, or decimals
/// that are put together as they are.
pub(crate) fn arith_two(
    alloc: Global,
    op: ArithOp,
    mode: Overflow,
    ty: Ty,
    given: &[Kind],
    a: Operand<'_>,
    b: Operand<'_>,
    n: usize,
) -> Result<Option<(Column, Stop)>, NoMemory>
    requires a { length (values n a) ≡ n }
    requires b { length (values n b) ≡ n }
    requires in_kind { (i : ℕ) → i < n → IfOk (at_places (binary (arith_spec.func_of op) ty.kind mode given.now) (values n a) (values n b) i) (InKind ty.kind) }
    ensures { IfOk result (λ found. IfSome found (λ out. IsMade (at_places (binary (arith_spec.func_of op) ty.kind mode given.now) (values n a.entry) (values n b.entry)) n ty out.0 out.1)) }
{
    match ty.kind {
        Kind::Decimal { precision, scale } => {
            arith_decimals(alloc, op, mode, ty, precision, scale, given, a, b, n)
        }
        _ => arith_whole(alloc, op, mode, ty, given, a, b, n),
    }
}

/// The same of whole numbers.
fn arith_whole(
    alloc: Global,
    op: ArithOp,
    mode: Overflow,
    ty: Ty,
    given: &[Kind],
    a: Operand<'_>,
    b: Operand<'_>,
    n: usize,
) -> Result<Option<(Column, Stop)>, NoMemory>
    requires a { length (values n a) ≡ n }
    requires b { length (values n b) ≡ n }
    requires in_kind { (i : ℕ) → i < n → IfOk (at_places (binary (arith_spec.func_of op) ty.kind mode given.now) (values n a) (values n b) i) (InKind ty.kind) }
    ensures { IfOk result (λ found. IfSome found (λ out. IsMade (at_places (binary (arith_spec.func_of op) ty.kind mode given.now) (values n a.entry) (values n b.entry)) n ty out.0 out.1)) }
{
    if !are_of(ty.kind, given) {
        return Ok(None);
    }
    match ty.kind {
        Kind::I8 => arith_i8(alloc, op, mode, ty, a, b, n),
        Kind::I16 => arith_i16(alloc, op, mode, ty, a, b, n),
        Kind::I32 => arith_i32(alloc, op, mode, ty, a, b, n),
        Kind::I64 => arith_i64(alloc, op, mode, ty, a, b, n),
        _ => Ok(None),
    }
}

/// Whether these are two kinds, and both this one.
fn are_of(kind: Kind, given: &[Kind]) -> bool
    ensures { result ≡ true → given.now ≡ kind ∷ kind ∷ [] }
{
    match given {
        [first, second] => *first == kind && *second == kind,
        _ => false,
    }
}

fn arith_i8(
    alloc: Global,
    op: ArithOp,
    mode: Overflow,
    ty: Ty,
    a: Operand<'_>,
    b: Operand<'_>,
    n: usize,
) -> Result<Option<(Column, Stop)>, NoMemory>
    requires kind { ty.kind ≡ kinds.I8 }
    requires a { length (values n a) ≡ n }
    requires b { length (values n b) ≡ n }
    requires in_kind { (i : ℕ) → i < n → IfOk (at_places (binary (arith_spec.func_of op) ty.kind mode (ty.kind ∷ ty.kind ∷ [])) (values n a) (values n b) i) (InKind ty.kind) }
    ensures { IfOk result (λ found. IfSome found (λ out. IsMade (at_places (binary (arith_spec.func_of op) ty.kind mode (ty.kind ∷ ty.kind ∷ [])) (values n a.entry) (values n b.entry)) n ty out.0 out.1)) }
{
    let Some(left) = i8_numbers(a) else {
        return Ok(None);
    };
    let Some(right) = i8_numbers(b) else {
        return Ok(None);
    };
    let range = (i8::MIN, i8::MAX);
    let Some(found) = arith_numbers(alloc, op, mode, range, left, right, n)? else {
        return Ok(None);
    };
    let column = Column {
        ty,
        values: ColumnData::I8(found.0),
    };
    Ok(Some((column, found.1)))
}

fn arith_i16(
    alloc: Global,
    op: ArithOp,
    mode: Overflow,
    ty: Ty,
    a: Operand<'_>,
    b: Operand<'_>,
    n: usize,
) -> Result<Option<(Column, Stop)>, NoMemory>
    requires kind { ty.kind ≡ kinds.I16 }
    requires a { length (values n a) ≡ n }
    requires b { length (values n b) ≡ n }
    requires in_kind { (i : ℕ) → i < n → IfOk (at_places (binary (arith_spec.func_of op) ty.kind mode (ty.kind ∷ ty.kind ∷ [])) (values n a) (values n b) i) (InKind ty.kind) }
    ensures { IfOk result (λ found. IfSome found (λ out. IsMade (at_places (binary (arith_spec.func_of op) ty.kind mode (ty.kind ∷ ty.kind ∷ [])) (values n a.entry) (values n b.entry)) n ty out.0 out.1)) }
{
    let Some(left) = i16_numbers(a) else {
        return Ok(None);
    };
    let Some(right) = i16_numbers(b) else {
        return Ok(None);
    };
    let range = (i16::MIN, i16::MAX);
    let Some(found) = arith_numbers(alloc, op, mode, range, left, right, n)? else {
        return Ok(None);
    };
    let column = Column {
        ty,
        values: ColumnData::I16(found.0),
    };
    Ok(Some((column, found.1)))
}

fn arith_i32(
    alloc: Global,
    op: ArithOp,
    mode: Overflow,
    ty: Ty,
    a: Operand<'_>,
    b: Operand<'_>,
    n: usize,
) -> Result<Option<(Column, Stop)>, NoMemory>
    requires kind { ty.kind ≡ kinds.I32 }
    requires a { length (values n a) ≡ n }
    requires b { length (values n b) ≡ n }
    requires in_kind { (i : ℕ) → i < n → IfOk (at_places (binary (arith_spec.func_of op) ty.kind mode (ty.kind ∷ ty.kind ∷ [])) (values n a) (values n b) i) (InKind ty.kind) }
    ensures { IfOk result (λ found. IfSome found (λ out. IsMade (at_places (binary (arith_spec.func_of op) ty.kind mode (ty.kind ∷ ty.kind ∷ [])) (values n a.entry) (values n b.entry)) n ty out.0 out.1)) }
{
    let Some(left) = i32_numbers(a) else {
        return Ok(None);
    };
    let Some(right) = i32_numbers(b) else {
        return Ok(None);
    };
    let range = (i32::MIN, i32::MAX);
    let Some(found) = arith_numbers(alloc, op, mode, range, left, right, n)? else {
        return Ok(None);
    };
    let column = Column {
        ty,
        values: ColumnData::I32(found.0),
    };
    Ok(Some((column, found.1)))
}

fn arith_i64(
    alloc: Global,
    op: ArithOp,
    mode: Overflow,
    ty: Ty,
    a: Operand<'_>,
    b: Operand<'_>,
    n: usize,
) -> Result<Option<(Column, Stop)>, NoMemory>
    requires kind { ty.kind ≡ kinds.I64 }
    requires a { length (values n a) ≡ n }
    requires b { length (values n b) ≡ n }
    requires in_kind { (i : ℕ) → i < n → IfOk (at_places (binary (arith_spec.func_of op) ty.kind mode (ty.kind ∷ ty.kind ∷ [])) (values n a) (values n b) i) (InKind ty.kind) }
    ensures { IfOk result (λ found. IfSome found (λ out. IsMade (at_places (binary (arith_spec.func_of op) ty.kind mode (ty.kind ∷ ty.kind ∷ [])) (values n a.entry) (values n b.entry)) n ty out.0 out.1)) }
{
    let Some(left) = i64_numbers(a) else {
        return Ok(None);
    };
    let Some(right) = i64_numbers(b) else {
        return Ok(None);
    };
    let range = (i64::MIN, i64::MAX);
    let Some(found) = arith_numbers(alloc, op, mode, range, left, right, n)? else {
        return Ok(None);
    };
    let column = Column {
        ty,
        values: ColumnData::I64(found.0),
    };
    Ok(Some((column, found.1)))
}

/// The results up to the first fault, and that fault, where one of the two is a column. The range is that of a kind of whole
/// numbers, or of decimals.
pub(crate) fn arith_numbers<T: Native>(
    alloc: Global,
    op: ArithOp,
    mode: Overflow,
    range: (T, T),
    a: Numbers<'_, T>,
    b: Numbers<'_, T>,
    n: usize,
) -> Result<Option<(Fixed<T>, Stop)>, NoMemory>
    requires a { length (listed n a) ≡ n }
    requires b { length (listed n b) ≡ n }
    ensures whole { IfOk result (λ found. IfSome found (λ out. (kind : kind_of) → arith_spec.IsWholeKind kind T.width (T.number range.0) (T.number range.1)
        → until (at_places (binary (arith_spec.func_of op) kind mode (kind ∷ kind ∷ [])) (ints T.number (listed n a.entry)) (ints T.number (listed n b.entry))) (range_with_len 0 n)
        ≡ record { values = ints T.number out.0; stop = out.1 })) }
    ensures decimal { IfOk result (λ found. IfSome found (λ out. (precision scale : ℕ) → arith_spec.IsDecimalKind precision T.width (T.number range.0) (T.number range.1) → arith_spec.divides op ≡ false
        → until (at_places (binary (arith_spec.func_of op) (kinds.Decimal precision scale) mode (kinds.Decimal precision scale ∷ kinds.Decimal precision scale ∷ [])) (decs T.number (listed n a.entry)) (decs T.number (listed n b.entry))) (range_with_len 0 n)
        ≡ record { values = decs T.number out.0; stop = out.1 })) }
{
    match a {
        Numbers::Column(a) => match b {
            Numbers::Column(b) => arith_both(alloc, op, mode, range, a, b, n),
            Numbers::Constant(b) => arith_right(alloc, op, mode, range, a, b, n),
        },
        Numbers::Constant(a) => match b {
            Numbers::Column(b) => arith_left(alloc, op, mode, range, a, b, n),
            Numbers::Constant(_) => Ok(None),
        },
    }
}

/// The same of two columns.
fn arith_both<T: Native>(
    alloc: Global,
    op: ArithOp,
    mode: Overflow,
    range: (T, T),
    a: &Fixed<T>,
    b: &Fixed<T>,
    n: usize,
) -> Result<Option<(Fixed<T>, Stop)>, NoMemory>
    requires a { length a.now ≡ n }
    requires b { length b.now ≡ n }
    ensures whole { IfOk result (λ found. IfSome found (λ out. (kind : kind_of) → arith_spec.IsWholeKind kind T.width (T.number range.0) (T.number range.1)
        → until (at_places (binary (arith_spec.func_of op) kind mode (kind ∷ kind ∷ [])) (ints T.number a.now) (ints T.number b.now)) (range_with_len 0 n)
        ≡ record { values = ints T.number out.0; stop = out.1 })) }
    ensures decimal { IfOk result (λ found. IfSome found (λ out. (precision scale : ℕ) → arith_spec.IsDecimalKind precision T.width (T.number range.0) (T.number range.1) → arith_spec.divides op ≡ false
        → until (at_places (binary (arith_spec.func_of op) (kinds.Decimal precision scale) mode (kinds.Decimal precision scale ∷ kinds.Decimal precision scale ∷ [])) (decs T.number a.now) (decs T.number b.now)) (range_with_len 0 n)
        ≡ record { values = decs T.number out.0; stop = out.1 })) }
{
    let found = arith(alloc, op, mode, range.0, range.1, a.view(), b.view())?;
    Ok(Some(found))
}

/// The same of a column and a constant.
fn arith_right<T: Native>(
    alloc: Global,
    op: ArithOp,
    mode: Overflow,
    range: (T, T),
    a: &Fixed<T>,
    b: Option<T>,
    n: usize,
) -> Result<Option<(Fixed<T>, Stop)>, NoMemory>
    requires { length a.now ≡ n }
    ensures whole { IfOk result (λ found. IfSome found (λ out. (kind : kind_of) → arith_spec.IsWholeKind kind T.width (T.number range.0) (T.number range.1)
        → until (at_places (binary (arith_spec.func_of op) kind mode (kind ∷ kind ∷ [])) (ints T.number a.now) (ints T.number (replicate n b))) (range_with_len 0 n)
        ≡ record { values = ints T.number out.0; stop = out.1 })) }
    ensures decimal { IfOk result (λ found. IfSome found (λ out. (precision scale : ℕ) → arith_spec.IsDecimalKind precision T.width (T.number range.0) (T.number range.1) → arith_spec.divides op ≡ false
        → until (at_places (binary (arith_spec.func_of op) (kinds.Decimal precision scale) mode (kinds.Decimal precision scale ∷ kinds.Decimal precision scale ∷ [])) (decs T.number a.now) (decs T.number (replicate n b))) (range_with_len 0 n)
        ≡ record { values = decs T.number out.0; stop = out.1 })) }
{
    let found = arith_with(alloc, op, mode, range.0, range.1, a.view(), b)?;
    Ok(Some(found))
}

/// The same of a constant and a column.
fn arith_left<T: Native>(
    alloc: Global,
    op: ArithOp,
    mode: Overflow,
    range: (T, T),
    a: Option<T>,
    b: &Fixed<T>,
    n: usize,
) -> Result<Option<(Fixed<T>, Stop)>, NoMemory>
    requires { length b.now ≡ n }
    ensures whole { IfOk result (λ found. IfSome found (λ out. (kind : kind_of) → arith_spec.IsWholeKind kind T.width (T.number range.0) (T.number range.1)
        → until (at_places (binary (arith_spec.func_of op) kind mode (kind ∷ kind ∷ [])) (ints T.number (replicate n a)) (ints T.number b.now)) (range_with_len 0 n)
        ≡ record { values = ints T.number out.0; stop = out.1 })) }
    ensures decimal { IfOk result (λ found. IfSome found (λ out. (precision scale : ℕ) → arith_spec.IsDecimalKind precision T.width (T.number range.0) (T.number range.1) → arith_spec.divides op ≡ false
        → until (at_places (binary (arith_spec.func_of op) (kinds.Decimal precision scale) mode (kinds.Decimal precision scale ∷ kinds.Decimal precision scale ∷ [])) (decs T.number (replicate n a)) (decs T.number b.now)) (range_with_len 0 n)
        ≡ record { values = decs T.number out.0; stop = out.1 })) }
{
    let found = arith_from(alloc, op, mode, range.0, range.1, a, b.view())?;
    Ok(Some(found))
}
