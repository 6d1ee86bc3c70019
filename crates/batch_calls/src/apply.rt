//! A function of the table on columns.
ghost use Rattle.std.specs.Prelude.{◌≡◌, ◌<◌, ◌≤◌, ℕ, List, length, map, take, All, IfOk, IfSome};
ghost use Rattle.plan_typed.specs.declared.expr.Overflow.{Overflow as mode_of};
ghost use Rattle.sub_types.specs.declared.kind.Kind.{Kind as kind_of};
ghost use Rattle.std.specs.List.{range_with_len};
ghost use Rattle.sub_types.specs.Kind.{IsKind};
ghost use Rattle.sub_types.specs.Rows.{across};
ghost use Rattle.sub_types.specs.Value.{InKind};
ghost use Rattle.sub_types.specs.declared.value.Value.TheVariants.{Null};
ghost use Rattle.plan_denote.specs.Calls.{applied};
ghost use Rattle.batch.specs.ColumnValues.{values_of};
ghost use Rattle.batch_nodes.specs.Found.{found_values};
ghost use Rattle.kernels.specs.Until.{until};
ghost use Rattle.call_kernels.specs.Made.{IsMade, at_places, at_three, applied_one, applied_two, applied_three};
ghost use Rattle.call_kernels.specs.Operand.{values};

use batch::{Column, ColumnBuilder};
use batch_nodes::Found;
use call_kernels::{Operand, call_one, call_three, call_two};
use eval_values::{EvalError, apply};
use kernels::Stop;
use plan_typed::{Func, Overflow};
use std::alloc::Global;
use sub_types::{Kind, NoMemory, Ty, Value};

/// What a function makes of its arguments' values at each of the first `n` places, up to the first fault, and that fault with
/// its place. `ty` is the result's type, `given` are the arguments' kinds. `and`, `or` and `coalesce` are none.
pub fn apply_columns(
    alloc: Global,
    func: Func,
    mode: Overflow,
    ty: Ty,
    given: &[Kind],
    columns: &[Found<'_>],
    n: usize,
) -> Result<(Column, Stop), NoMemory>
    requires valid_kind { IsKind ty.kind }
    requires long { All (λ column. n ≤ length (found_values column)) columns.now }
    requires in_kind { (i : ℕ) → i < n → IfOk (applied func ty.kind mode given.now (across Null (map found_values columns.now) i)) (λ value. InKind ty.kind value) }
    ensures values { IfOk result (λ out. values_of out.0.values ≡ (until (λ i. applied func ty.kind mode given.now (across Null (map found_values columns.now) i)) (range_with_len 0 n)).values) }
    ensures stop { IfOk result (λ out. out.1 ≡ (until (λ i. applied func ty.kind mode given.now (across Null (map found_values columns.now) i)) (range_with_len 0 n)).stop) }
    ensures ty { IfOk result (λ out. out.0.ty ≡ ty) }
{
    let kernel = apply_kernel(alloc, func, mode, ty, given, columns, n)?;
    match kernel {
        Some(made) => Ok(made),
        None => apply_rows(alloc, func, mode, ty, given, columns, n),
    }
}

/// The same by whole columns, where a kernel fits them.
fn apply_kernel(
    alloc: Global,
    func: Func,
    mode: Overflow,
    ty: Ty,
    given: &[Kind],
    columns: &[Found<'_>],
    n: usize,
) -> Result<Option<(Column, Stop)>, NoMemory>
    requires long { All (λ column. n ≤ length (found_values column)) columns.now }
    requires in_kind { (i : ℕ) → i < n → IfOk (applied func ty.kind mode given.now (across Null (map found_values columns.now) i)) (λ value. InKind ty.kind value) }
    ensures { IfOk result (λ found. IfSome found (λ out. IsMade (λ i. applied func ty.kind mode given.now (across Null (map found_values columns.now) i)) n ty out.0 out.1)) }
{
    if columns.len() == 1 {
        return kernel_for_one(alloc, func, mode, ty, given, columns, n);
    }
    if columns.len() == 2 {
        return kernel_for_two(alloc, func, mode, ty, given, columns, n);
    }
    if columns.len() == 3 {
        return kernel_for_three(alloc, func, mode, ty, given, columns, n);
    }
    Ok(None)
}

fn kernel_for_one(
    alloc: Global,
    func: Func,
    mode: Overflow,
    ty: Ty,
    given: &[Kind],
    columns: &[Found<'_>],
    n: usize,
) -> Result<Option<(Column, Stop)>, NoMemory>
    requires count { length columns.now ≡ 1 }
    requires long { All (λ column. n ≤ length (found_values column)) columns.now }
    requires in_kind { (i : ℕ) → i < n → IfOk (applied func ty.kind mode given.now (across Null (map found_values columns.now) i)) (λ value. InKind ty.kind value) }
    ensures { IfOk result (λ found. IfSome found (λ out. IsMade (λ i. applied func ty.kind mode given.now (across Null (map found_values columns.now) i)) n ty out.0 out.1)) }
{
    kernel_of_one(alloc, func, ty, &columns[0], n)
}

fn kernel_for_two(
    alloc: Global,
    func: Func,
    mode: Overflow,
    ty: Ty,
    given: &[Kind],
    columns: &[Found<'_>],
    n: usize,
) -> Result<Option<(Column, Stop)>, NoMemory>
    requires count { length columns.now ≡ 2 }
    requires long { All (λ column. n ≤ length (found_values column)) columns.now }
    requires in_kind { (i : ℕ) → i < n → IfOk (applied func ty.kind mode given.now (across Null (map found_values columns.now) i)) (λ value. InKind ty.kind value) }
    ensures { IfOk result (λ found. IfSome found (λ out. IsMade (λ i. applied func ty.kind mode given.now (across Null (map found_values columns.now) i)) n ty out.0 out.1)) }
{
    kernel_of_two(alloc, func, mode, ty, given, &columns[0], &columns[1], n)
}

fn kernel_for_three(
    alloc: Global,
    func: Func,
    mode: Overflow,
    ty: Ty,
    given: &[Kind],
    columns: &[Found<'_>],
    n: usize,
) -> Result<Option<(Column, Stop)>, NoMemory>
    requires count { length columns.now ≡ 3 }
    requires long { All (λ column. n ≤ length (found_values column)) columns.now }
    requires in_kind { (i : ℕ) → i < n → IfOk (applied func ty.kind mode given.now (across Null (map found_values columns.now) i)) (λ value. InKind ty.kind value) }
    ensures { IfOk result (λ found. IfSome found (λ out. IsMade (λ i. applied func ty.kind mode given.now (across Null (map found_values columns.now) i)) n ty out.0 out.1)) }
{
    kernel_of_three(
        alloc,
        func,
        mode,
        ty,
        given,
        &columns[0],
        &columns[1],
        &columns[2],
        n,
    )
}

fn kernel_of_one(
    alloc: Global,
    func: Func,
    ty: Ty,
    a: &Found<'_>,
    n: usize,
) -> Result<Option<(Column, Stop)>, NoMemory>
    requires { n ≤ length (found_values a.now) }
    ensures { IfOk result (λ found. IfSome found (λ out. (mode : mode_of) (given : List kind_of) → IsMade (at_places (applied_one func ty.kind mode given) (found_values a.now) (found_values a.now)) n ty out.0 out.1)) }
{
    let Some(only) = operand_of(a, n) else {
        return Ok(None);
    };
    call_one(alloc, func, ty, only, n)
}

fn kernel_of_two(
    alloc: Global,
    func: Func,
    mode: Overflow,
    ty: Ty,
    given: &[Kind],
    a: &Found<'_>,
    b: &Found<'_>,
    n: usize,
) -> Result<Option<(Column, Stop)>, NoMemory>
    requires a { n ≤ length (found_values a.now) }
    requires b { n ≤ length (found_values b.now) }
    requires in_kind { (i : ℕ) → i < n → IfOk (at_places (applied_two func ty.kind mode given.now) (found_values a.now) (found_values b.now) i) (λ value. InKind ty.kind value) }
    ensures { IfOk result (λ found. IfSome found (λ out. IsMade (at_places (applied_two func ty.kind mode given.now) (found_values a.now) (found_values b.now)) n ty out.0 out.1)) }
{
    let Some(left) = operand_of(a, n) else {
        return Ok(None);
    };
    let Some(right) = operand_of(b, n) else {
        return Ok(None);
    };
    call_two(alloc, func, mode, ty, given, left, right, n)
}

fn kernel_of_three(
    alloc: Global,
    func: Func,
    mode: Overflow,
    ty: Ty,
    given: &[Kind],
    a: &Found<'_>,
    b: &Found<'_>,
    c: &Found<'_>,
    n: usize,
) -> Result<Option<(Column, Stop)>, NoMemory>
    requires a { n ≤ length (found_values a.now) }
    requires b { n ≤ length (found_values b.now) }
    requires c { n ≤ length (found_values c.now) }
    requires in_kind { (i : ℕ) → i < n → IfOk (at_three (applied_three func ty.kind mode given.now) (found_values a.now) (found_values b.now) (found_values c.now) i) (λ value. InKind ty.kind value) }
    ensures { IfOk result (λ found. IfSome found (λ out. IsMade (at_three (applied_three func ty.kind mode given.now) (found_values a.now) (found_values b.now) (found_values c.now)) n ty out.0 out.1)) }
{
    let Some(first) = operand_of(a, n) else {
        return Ok(None);
    };
    let Some(second) = operand_of(b, n) else {
        return Ok(None);
    };
    let Some(third) = operand_of(c, n) else {
        return Ok(None);
    };
    call_three(alloc, func, mode, ty, given, first, second, third, n)
}

/// An argument's first `n` values as they are lent: the kernels take a column of more by rows.
fn operand_of<'b>(found: &'b Found<'_>, n: usize) -> Option<Operand<'b>>
    requires { n ≤ length (found_values found.now) }
    ensures { IfSome result (λ operand. values n operand ≡ take n (found_values found.now)) }
{
    match found {
        Found::Made(column) => whole(column, n),
        Found::Whole(column, _) => whole(column, n),
        Found::Constant(value, _) => Some(Operand::Constant(value)),
    }
}

/// A column of exactly `n` values.
fn whole(column: &Column, n: usize) -> Option<Operand<'_>>
    ensures { IfSome result (λ operand. (length (values_of column.now.values) ≡ n) × (values n operand ≡ values_of column.now.values)) }
{
    if column.values.len() == n {
        Some(Operand::Column(column))
    } else {
        None
    }
}

/// The same row by row.
fn apply_rows(
    alloc: Global,
    func: Func,
    mode: Overflow,
    ty: Ty,
    given: &[Kind],
    columns: &[Found<'_>],
    n: usize,
) -> Result<(Column, Stop), NoMemory>
    requires valid_kind { IsKind ty.kind }
    requires long { All (λ column. n ≤ length (found_values column)) columns.now }
    requires in_kind { (i : ℕ) → i < n → IfOk (applied func ty.kind mode given.now (across Null (map found_values columns.now) i)) (λ value. InKind ty.kind value) }
    ensures values { IfOk result (λ out. values_of out.0.values ≡ (until (λ i. applied func ty.kind mode given.now (across Null (map found_values columns.now) i)) (range_with_len 0 n)).values) }
    ensures stop { IfOk result (λ out. out.1 ≡ (until (λ i. applied func ty.kind mode given.now (across Null (map found_values columns.now) i)) (range_with_len 0 n)).stop) }
    ensures ty { IfOk result (λ out. out.0.ty ≡ ty) }
{
    let mut built = ColumnBuilder::new(alloc, ty);
    for i in 0..n {
        let args = values_across(alloc, columns, i)?;
        match apply(alloc, func, ty.kind, mode, given, args.as_slice()) {
            Ok(value) => built.push(&value)?,
            Err(EvalError::Fault(kind)) => {
                return Ok((
                    built.finish(),
                    Stop::At {
                        row: i as u64,
                        kind,
                    },
                ));
            }
            Err(EvalError::NoMemory) => return Err(NoMemory),
        }
    }
    Ok((built.finish(), Stop::Never))
}

/// The values at a place.
fn values_across(alloc: Global, columns: &[Found<'_>], i: usize) -> Result<Vec<Value>, NoMemory>
    requires { All (λ column. i < length (found_values column)) columns.now }
    ensures { IfOk result (λ values. values.items ≡ across Null (map found_values columns.now) i) }
{
    let mut values = Vec::with_capacity(alloc, columns.len())?;
    for column in columns {
        values.push(column.value_at(alloc, i)?)?;
    }
    Ok(values)
}
