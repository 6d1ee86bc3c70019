// Comparisons of arguments.
ghost use Rattle.std.specs.Prelude.{◌≡◌, ℕ, List, length, map, replicate, Ok, IfOk, IfSome};
ghost use Rattle.std.specs.Simd.Lanes.{zip2};
ghost use Rattle.sub_types.specs.Nullable.{bool_value};
ghost use Rattle.sub_types.specs.declared.value.Value.{Value as value};
ghost use Rattle.plan_denote.specs.Logic as logic;
ghost use Rattle.kernels.specs.Numbers.{ints, decs, test_of};
ghost use Rattle.call_kernels.specs.Numbers.{listed};
ghost use Rattle.call_kernels.specs.Operand.{values};
ghost use Rattle.call_kernels.specs.Functions.{compare_func};

use crate::Operand;
use crate::numbers::{Numbers, i8_numbers, i16_numbers, i32_numbers, i64_numbers, i128_numbers};
use crate::text_order::compare_bytes;
use batch::Storage;
use col_fixed::{BoolCol, Fixed, Native};
use kernels::{CompareOp, compare, compare_from, compare_with};
use plan_typed::Func;
use std::alloc::Global;
use sub_types::NoMemory;

/// The comparison that a function is.
pub(crate) fn comparison_of(func: Func) -> Option<CompareOp>
    ensures { IfSome result (λ op. func ≡ compare_func op) }
{
    match func {
        Func::Equal => Some(CompareOp::Eq),
        Func::NotEqual => Some(CompareOp::Ne),
        Func::Lt => Some(CompareOp::Lt),
        Func::Lte => Some(CompareOp::Le),
        Func::Gt => Some(CompareOp::Gt),
        Func::Gte => Some(CompareOp::Ge),
        _ => None,
    }
}

/// The comparison at each place, where both arguments are numbers of one type, or both texts or binaries.
pub(crate) fn compare_two(
    alloc: Global,
    op: CompareOp,
    a: Operand<'_>,
    b: Operand<'_>,
    n: usize,
) -> Result<Option<BoolCol>, NoMemory>
    requires a { length (values n a) ≡ n }
    requires b { length (values n b) ≡ n }
    ensures { IfOk result (λ found. IfSome found (λ column. map (λ truth. Ok (bool_value truth)) column ≡ zip2 (logic.compared (test_of op)) (values n a.entry) (values n b.entry))) }
{
    match width_of(a, b) {
        Some(Storage::I8) => compare_i8(alloc, op, a, b, n),
        Some(Storage::I16) => compare_i16(alloc, op, a, b, n),
        Some(Storage::I32) => compare_i32(alloc, op, a, b, n),
        Some(Storage::I64) => compare_i64(alloc, op, a, b, n),
        Some(Storage::I128) => compare_i128(alloc, op, a, b, n),
        Some(Storage::Bytes) => compare_bytes(alloc, op, a, b, n),
        _ => Ok(None),
    }
}

/// How the first of them that is a column is stored.
fn width_of(a: Operand<'_>, b: Operand<'_>) -> Option<Storage> {
    match (a, b) {
        (Operand::Column(column), _) | (_, Operand::Column(column)) => {
            Some(Storage::of_kind(column.ty.kind))
        }
        _ => None,
    }
}

fn compare_i8(
    alloc: Global,
    op: CompareOp,
    a: Operand<'_>,
    b: Operand<'_>,
    n: usize,
) -> Result<Option<BoolCol>, NoMemory>
    requires a { length (values n a) ≡ n }
    requires b { length (values n b) ≡ n }
    ensures { IfOk result (λ found. IfSome found (λ column. map (λ truth. Ok (bool_value truth)) column ≡ zip2 (logic.compared (test_of op)) (values n a.entry) (values n b.entry))) }
{
    let Some(left) = i8_numbers(a) else {
        return Ok(None);
    };
    let Some(right) = i8_numbers(b) else {
        return Ok(None);
    };
    compare_numbers(alloc, op, left, right, n)
}

fn compare_i16(
    alloc: Global,
    op: CompareOp,
    a: Operand<'_>,
    b: Operand<'_>,
    n: usize,
) -> Result<Option<BoolCol>, NoMemory>
    requires a { length (values n a) ≡ n }
    requires b { length (values n b) ≡ n }
    ensures { IfOk result (λ found. IfSome found (λ column. map (λ truth. Ok (bool_value truth)) column ≡ zip2 (logic.compared (test_of op)) (values n a.entry) (values n b.entry))) }
{
    let Some(left) = i16_numbers(a) else {
        return Ok(None);
    };
    let Some(right) = i16_numbers(b) else {
        return Ok(None);
    };
    compare_numbers(alloc, op, left, right, n)
}

fn compare_i32(
    alloc: Global,
    op: CompareOp,
    a: Operand<'_>,
    b: Operand<'_>,
    n: usize,
) -> Result<Option<BoolCol>, NoMemory>
    requires a { length (values n a) ≡ n }
    requires b { length (values n b) ≡ n }
    ensures { IfOk result (λ found. IfSome found (λ column. map (λ truth. Ok (bool_value truth)) column ≡ zip2 (logic.compared (test_of op)) (values n a.entry) (values n b.entry))) }
{
    let Some(left) = i32_numbers(a) else {
        return Ok(None);
    };
    let Some(right) = i32_numbers(b) else {
        return Ok(None);
    };
    compare_numbers(alloc, op, left, right, n)
}

fn compare_i64(
    alloc: Global,
    op: CompareOp,
    a: Operand<'_>,
    b: Operand<'_>,
    n: usize,
) -> Result<Option<BoolCol>, NoMemory>
    requires a { length (values n a) ≡ n }
    requires b { length (values n b) ≡ n }
    ensures { IfOk result (λ found. IfSome found (λ column. map (λ truth. Ok (bool_value truth)) column ≡ zip2 (logic.compared (test_of op)) (values n a.entry) (values n b.entry))) }
{
    let Some(left) = i64_numbers(a) else {
        return Ok(None);
    };
    let Some(right) = i64_numbers(b) else {
        return Ok(None);
    };
    compare_numbers(alloc, op, left, right, n)
}

fn compare_i128(
    alloc: Global,
    op: CompareOp,
    a: Operand<'_>,
    b: Operand<'_>,
    n: usize,
) -> Result<Option<BoolCol>, NoMemory>
    requires a { length (values n a) ≡ n }
    requires b { length (values n b) ≡ n }
    ensures { IfOk result (λ found. IfSome found (λ column. map (λ truth. Ok (bool_value truth)) column ≡ zip2 (logic.compared (test_of op)) (values n a.entry) (values n b.entry))) }
{
    let Some(left) = i128_numbers(a) else {
        return Ok(None);
    };
    let Some(right) = i128_numbers(b) else {
        return Ok(None);
    };
    compare_numbers(alloc, op, left, right, n)
}

/// The comparison at each place, where one of the two is a column.
fn compare_numbers<T: Native>(
    alloc: Global,
    op: CompareOp,
    a: Numbers<'_, T>,
    b: Numbers<'_, T>,
    n: usize,
) -> Result<Option<BoolCol>, NoMemory>
    requires a { length (listed n a) ≡ n }
    requires b { length (listed n b) ≡ n }
    ensures whole { IfOk result (λ found. IfSome found (λ column. map (λ truth. Ok (bool_value truth)) column ≡ zip2 (logic.compared (test_of op)) (ints T.number (listed n a.entry)) (ints T.number (listed n b.entry)))) }
    ensures decimal { IfOk result (λ found. IfSome found (λ column. map (λ truth. Ok (bool_value truth)) column ≡ zip2 (logic.compared (test_of op)) (decs T.number (listed n a.entry)) (decs T.number (listed n b.entry)))) }
{
    match a {
        Numbers::Column(a) => match b {
            Numbers::Column(b) => Ok(Some(compare(alloc, op, a.view(), b.view())?)),
            Numbers::Constant(b) => compare_right(alloc, op, a, b, n),
        },
        Numbers::Constant(a) => match b {
            Numbers::Column(b) => compare_left(alloc, op, a, b, n),
            Numbers::Constant(_) => Ok(None),
        },
    }
}

/// The comparison of each number with a constant on its right.
fn compare_right<T: Native>(
    alloc: Global,
    op: CompareOp,
    a: &Fixed<T>,
    b: Option<T>,
    n: usize,
) -> Result<Option<BoolCol>, NoMemory>
    requires { length a.now ≡ n }
    ensures whole { IfOk result (λ found. IfSome found (λ column. map (λ truth. Ok (bool_value truth)) column ≡ zip2 (logic.compared (test_of op)) (ints T.number a.now) (ints T.number (replicate n b)))) }
    ensures decimal { IfOk result (λ found. IfSome found (λ column. map (λ truth. Ok (bool_value truth)) column ≡ zip2 (logic.compared (test_of op)) (decs T.number a.now) (decs T.number (replicate n b)))) }
{
    let found = compare_with(alloc, op, a.view(), b)?;
    Ok(Some(found))
}

/// The same of a constant and each number on its right.
fn compare_left<T: Native>(
    alloc: Global,
    op: CompareOp,
    a: Option<T>,
    b: &Fixed<T>,
    n: usize,
) -> Result<Option<BoolCol>, NoMemory>
    requires { length b.now ≡ n }
    ensures whole { IfOk result (λ found. IfSome found (λ column. map (λ truth. Ok (bool_value truth)) column ≡ zip2 (logic.compared (test_of op)) (ints T.number (replicate n a)) (ints T.number b.now))) }
    ensures decimal { IfOk result (λ found. IfSome found (λ column. map (λ truth. Ok (bool_value truth)) column ≡ zip2 (logic.compared (test_of op)) (decs T.number (replicate n a)) (decs T.number b.now))) }
{
    let found = compare_from(alloc, op, a, b.view())?;
    Ok(Some(found))
}
