// Functions of one argument, of two and of three.
ghost use Rattle.std.specs.Prelude.{◌≡◌, ◌<◌, ℕ, List, length, replicate, IfOk, IfSome};
ghost use Rattle.sub_types.specs.Value.{InKind};
ghost use Rattle.plan_typed.specs.declared.expr.Overflow.{Overflow as mode_of};
ghost use Rattle.sub_types.specs.declared.kind.Kind.{Kind as kind_of};
ghost use Rattle.call_kernels.specs.Made.{IsMade, at_places, at_three, applied_one, applied_two, applied_three};
ghost use Rattle.call_kernels.specs.Operand.{values};
ghost use Rattle.call_kernels.specs.Functions.{compare_func, text_func};
ghost use Rattle.kernels.specs.Arith as arith_spec;
ghost use Rattle.plan_typed.specs.declared.expr.Func.TheVariants as funcs;

use crate::Operand;
use crate::arithmetic::{arith_two, operation_of};
use crate::comparisons::{compare_two, comparison_of};
use crate::made::truths;
use crate::nulls::{is_not_null_one, is_null_one};
use crate::parts::substring_constants;
use crate::ranges::between_constants;
use crate::texts::{TextTest, test_two, text_test_of};
use crate::truths::{not_one, xor_two};
use batch::Column;
use kernels::{ArithOp, CompareOp, Stop};
use plan_typed::{Func, Overflow};
use std::alloc::Global;
use sub_types::{Kind, NoMemory, Ty, Value};

/// What a function makes of an argument at each of the first `n` places, if a kernel fits it. `ty` is the result's type.
pub fn call_one(
    alloc: Global,
    func: Func,
    ty: Ty,
    a: Operand<'_>,
    n: usize,
) -> Result<Option<(Column, Stop)>, NoMemory>
    requires { length (values n a) ≡ n }
    ensures { IfOk result (λ found. IfSome found (λ out. (mode : mode_of) (given : List kind_of) → IsMade (at_places (applied_one func ty.kind mode given) (values n a.entry) (values n a.entry)) n ty out.0 out.1)) }
{
    match func {
        Func::Not => by_not(alloc, func, ty, a, n),
        Func::IsNull => by_null(alloc, func, ty, a, n),
        Func::IsNotNull => by_there(alloc, func, ty, a, n),
        _ => Ok(None),
    }
}

fn by_not(
    alloc: Global,
    func: Func,
    ty: Ty,
    a: Operand<'_>,
    n: usize,
) -> Result<Option<(Column, Stop)>, NoMemory>
    requires of { func ≡ funcs.Not }
    requires long { length (values n a) ≡ n }
    ensures { IfOk result (λ found. IfSome found (λ out. (mode : mode_of) (given : List kind_of) → IsMade (at_places (applied_one func ty.kind mode given) (values n a.entry) (values n a.entry)) n ty out.0 out.1)) }
{
    let column = not_one(alloc, a)?;
    Ok(truths(ty, column))
}

fn by_null(
    alloc: Global,
    func: Func,
    ty: Ty,
    a: Operand<'_>,
    n: usize,
) -> Result<Option<(Column, Stop)>, NoMemory>
    requires of { func ≡ funcs.IsNull }
    requires long { length (values n a) ≡ n }
    ensures { IfOk result (λ found. IfSome found (λ out. (mode : mode_of) (given : List kind_of) → IsMade (at_places (applied_one func ty.kind mode given) (values n a.entry) (values n a.entry)) n ty out.0 out.1)) }
{
    let column = is_null_one(alloc, a)?;
    Ok(truths(ty, column))
}

fn by_there(
    alloc: Global,
    func: Func,
    ty: Ty,
    a: Operand<'_>,
    n: usize,
) -> Result<Option<(Column, Stop)>, NoMemory>
    requires of { func ≡ funcs.IsNotNull }
    requires long { length (values n a) ≡ n }
    ensures { IfOk result (λ found. IfSome found (λ out. (mode : mode_of) (given : List kind_of) → IsMade (at_places (applied_one func ty.kind mode given) (values n a.entry) (values n a.entry)) n ty out.0 out.1)) }
{
    let column = is_not_null_one(alloc, a)?;
    Ok(truths(ty, column))
}

/// What a function makes of two arguments at each of the first `n` places, up to the first fault, and that fault with its
/// place, if a kernel fits them. `ty` is the result's type, `given` are the arguments' kinds.
pub fn call_two(
    alloc: Global,
    func: Func,
    mode: Overflow,
    ty: Ty,
    given: &[Kind],
    a: Operand<'_>,
    b: Operand<'_>,
    n: usize,
) -> Result<Option<(Column, Stop)>, NoMemory>
    requires a { length (values n a) ≡ n }
    requires b { length (values n b) ≡ n }
    requires in_kind { (i : ℕ) → i < n → IfOk (at_places (applied_two func ty.kind mode given.now) (values n a) (values n b) i) (InKind ty.kind) }
    ensures { IfOk result (λ found. IfSome found (λ out. IsMade (at_places (applied_two func ty.kind mode given.now) (values n a.entry) (values n b.entry)) n ty out.0 out.1)) }
{
    if let Some(op) = comparison_of(func) {
        return by_comparison(alloc, func, op, mode, ty, given, a, b, n);
    }
    if let Some(op) = operation_of(func) {
        return by_arithmetic(alloc, func, op, mode, ty, given, a, b, n);
    }
    if let Some(test) = text_test_of(func) {
        return by_test(alloc, func, test, mode, ty, given, a, b, n);
    }
    match func {
        Func::Xor => by_xor(alloc, func, mode, ty, given, a, b, n),
        _ => Ok(None),
    }
}

fn by_comparison(
    alloc: Global,
    func: Func,
    op: CompareOp,
    mode: Overflow,
    ty: Ty,
    given: &[Kind],
    a: Operand<'_>,
    b: Operand<'_>,
    n: usize,
) -> Result<Option<(Column, Stop)>, NoMemory>
    requires of { func ≡ compare_func op }
    requires a { length (values n a) ≡ n }
    requires b { length (values n b) ≡ n }
    ensures { IfOk result (λ found. IfSome found (λ out. IsMade (at_places (applied_two func ty.kind mode given.now) (values n a.entry) (values n b.entry)) n ty out.0 out.1)) }
{
    let column = compare_two(alloc, op, a, b, n)?;
    Ok(truths(ty, column))
}

fn by_arithmetic(
    alloc: Global,
    func: Func,
    op: ArithOp,
    mode: Overflow,
    ty: Ty,
    given: &[Kind],
    a: Operand<'_>,
    b: Operand<'_>,
    n: usize,
) -> Result<Option<(Column, Stop)>, NoMemory>
    requires of { func ≡ arith_spec.func_of op }
    requires a { length (values n a) ≡ n }
    requires b { length (values n b) ≡ n }
    requires in_kind { (i : ℕ) → i < n → IfOk (at_places (applied_two func ty.kind mode given.now) (values n a) (values n b) i) (InKind ty.kind) }
    ensures { IfOk result (λ found. IfSome found (λ out. IsMade (at_places (applied_two func ty.kind mode given.now) (values n a.entry) (values n b.entry)) n ty out.0 out.1)) }
{
    arith_two(alloc, op, mode, ty, given, a, b, n)
}

fn by_test(
    alloc: Global,
    func: Func,
    test: TextTest,
    mode: Overflow,
    ty: Ty,
    given: &[Kind],
    a: Operand<'_>,
    b: Operand<'_>,
    n: usize,
) -> Result<Option<(Column, Stop)>, NoMemory>
    requires of { func ≡ text_func test }
    requires a { length (values n a) ≡ n }
    requires b { length (values n b) ≡ n }
    ensures { IfOk result (λ found. IfSome found (λ out. IsMade (at_places (applied_two func ty.kind mode given.now) (values n a.entry) (values n b.entry)) n ty out.0 out.1)) }
{
    let column = test_two(alloc, test, a, b, n)?;
    Ok(truths(ty, column))
}

fn by_xor(
    alloc: Global,
    func: Func,
    mode: Overflow,
    ty: Ty,
    given: &[Kind],
    a: Operand<'_>,
    b: Operand<'_>,
    n: usize,
) -> Result<Option<(Column, Stop)>, NoMemory>
    requires of { func ≡ funcs.Xor }
    requires a { length (values n a) ≡ n }
    requires b { length (values n b) ≡ n }
    ensures { IfOk result (λ found. IfSome found (λ out. IsMade (at_places (applied_two func ty.kind mode given.now) (values n a.entry) (values n b.entry)) n ty out.0 out.1)) }
{
    let column = xor_two(alloc, a, b, n)?;
    Ok(truths(ty, column))
}

/// The same of three arguments.
pub fn call_three(
    alloc: Global,
    func: Func,
    mode: Overflow,
    ty: Ty,
    given: &[Kind],
    a: Operand<'_>,
    b: Operand<'_>,
    c: Operand<'_>,
    n: usize,
) -> Result<Option<(Column, Stop)>, NoMemory>
    requires a { length (values n a) ≡ n }
    requires in_kind { (i : ℕ) → i < n → IfOk (at_three (applied_three func ty.kind mode given.now) (values n a) (values n b) (values n c) i) (InKind ty.kind) }
    ensures { IfOk result (λ found. IfSome found (λ out. IsMade (at_three (applied_three func ty.kind mode given.now) (values n a.entry) (values n b.entry) (values n c.entry)) n ty out.0 out.1)) }
{
    match b {
        Operand::Constant(b) => match c {
            Operand::Constant(c) => call_with_two(alloc, func, mode, ty, given, a, b, c, n),
            Operand::Column(_) => Ok(None),
        },
        Operand::Column(_) => Ok(None),
    }
}

/// The same where the second and the third are constants.
fn call_with_two(
    alloc: Global,
    func: Func,
    mode: Overflow,
    ty: Ty,
    given: &[Kind],
    a: Operand<'_>,
    b: &Value,
    c: &Value,
    n: usize,
) -> Result<Option<(Column, Stop)>, NoMemory>
    requires a { length (values n a) ≡ n }
    requires in_kind { (i : ℕ) → i < n → IfOk (at_three (applied_three func ty.kind mode given.now) (values n a) (replicate n b.now) (replicate n c.now) i) (InKind ty.kind) }
    ensures { IfOk result (λ found. IfSome found (λ out. IsMade (at_three (applied_three func ty.kind mode given.now) (values n a.entry) (replicate n b.now) (replicate n c.now)) n ty out.0 out.1)) }
{
    match func {
        Func::Between => by_range(alloc, func, mode, ty, given, a, b, c, n),
        Func::Substring => by_part(alloc, func, mode, ty, given, a, b, c, n),
        _ => Ok(None),
    }
}

fn by_range(
    alloc: Global,
    func: Func,
    mode: Overflow,
    ty: Ty,
    given: &[Kind],
    a: Operand<'_>,
    low: &Value,
    high: &Value,
    n: usize,
) -> Result<Option<(Column, Stop)>, NoMemory>
    requires of { func ≡ funcs.Between }
    requires a { length (values n a) ≡ n }
    ensures { IfOk result (λ found. IfSome found (λ out. IsMade (at_three (applied_three func ty.kind mode given.now) (values n a.entry) (replicate n low.now) (replicate n high.now)) n ty out.0 out.1)) }
{
    let column = between_constants(alloc, a, low, high, n)?;
    Ok(truths(ty, column))
}

fn by_part(
    alloc: Global,
    func: Func,
    mode: Overflow,
    ty: Ty,
    given: &[Kind],
    a: Operand<'_>,
    start: &Value,
    count: &Value,
    n: usize,
) -> Result<Option<(Column, Stop)>, NoMemory>
    requires of { func ≡ funcs.Substring }
    requires a { length (values n a) ≡ n }
    requires in_kind { (i : ℕ) → i < n → IfOk (at_three (applied_three func ty.kind mode given.now) (values n a) (replicate n start.now) (replicate n count.now) i) (InKind ty.kind) }
    ensures { IfOk result (λ found. IfSome found (λ out. IsMade (at_three (applied_three func ty.kind mode given.now) (values n a.entry) (replicate n start.now) (replicate n count.now)) n ty out.0 out.1)) }
{
    let Some(column) = substring_constants(alloc, ty, a, start, count, n)? else {
        return Ok(None);
    };
    Ok(Some((column, Stop::Never)))
}
