//! What the nodes of an expression are worth by what their parts are worth.
ghost use Rattle.std.specs.Prelude.{◌≡◌, ◌<◌, true, length, map, All, IfOk, Ok};
ghost use Rattle.sub_types.specs.Value.{Fits};
ghost use Rattle.plan_typed.specs.Types.{ty_of};
ghost use Rattle.plan_typed.specs.declared.expr.Expr.TheVariants as exprs;
ghost use Rattle.well_typed.specs.ExprTyped.{IsTypedOver};
ghost use Rattle.batch.specs.BatchRows.{rows_of, types_of};
ghost use Rattle.batch_nodes.specs.Chosen as by_number;
ghost use Rattle.batch_nodes.specs.Evaluated.{eval_at};
ghost use Rattle.batch_nodes.specs.Found.{IsUntil, found_values};
ghost use Rattle.batch_nodes.specs.Narrowed.{open_rows};
ghost use Rattle.batch_nodes.specs.Options.{place_of};
ghost use Rattle.batch_nodes.specs.Parts as parts;

use crate::lists::{kinds_in, stop_of};
use batch::Batch;
use batch_calls::{apply_columns, cast_column};
use batch_nodes::{Found, scatter};
use kernels::{Rows, Stop};
use plan_typed::{Expr, Func, Overflow};
use std::alloc::Global;
use sub_types::{NoMemory, Ty, Value};

/// The columns of all arguments of a call, of which the first `len` places are before the stop.
#[derive(Drop)]
pub(crate) struct Columns<'a> {
    pub(crate) found: Vec<Found<'a>>,
    pub(crate) len: usize,
    pub(crate) stop: Stop,
}

/// The arms that rows choose, by their numbers, and the columns of the arms, each at the rows that choose it.
#[derive(Drop)]
pub(crate) struct Chosen<'a> {
    pub(crate) choices: Vec<usize>,
    pub(crate) stop: Stop,
    pub(crate) columns: Vec<(Found<'a>, Stop)>,
}

/// A call whose arguments are all evaluated.
pub(crate) fn call_values<'a>(
    alloc: Global,
    func: Func,
    mode: Overflow,
    args: &[Expr],
    ty: Ty,
    batch: &Batch,
    rows: &Rows<'_>,
    columns: &Columns<'_>,
) -> Result<(Found<'a>, Stop), NoMemory>
    requires strict { parts.is_strict func ≡ true }
    requires typed { IsTypedOver (types_of batch.now) (exprs.Call func mode args.now ty) }
    requires fit { All (Fits (types_of batch.now)) (rows_of batch.now) }
    requires exist { All (λ row. row < batch.now.rows) rows.now }
    requires are { parts.AreColumns args.now batch.now rows.now columns.now.found.items columns.now.len columns.now.stop }
    ensures { IfOk result (λ out. IsUntil (eval_at (exprs.Call func mode args.now ty) batch.now) rows.now (ty_of (exprs.Call func mode args.now ty)).kind out.0 out.1) }
{
    let given = kinds_in(alloc, args)?;
    let (column, stop) = apply_columns(
        alloc,
        func,
        mode,
        ty,
        given.as_slice(),
        columns.found.as_slice(),
        columns.len,
    )?;
    Ok((Found::Made(column), stop_of(stop, rows, columns.stop)))
}

/// The value of the first arm whose condition is true, or of the other, whose column is `rest`.
pub(crate) fn if_values<'a>(
    alloc: Global,
    arms: &[(Expr, Expr)],
    other: &Expr,
    ty: Ty,
    batch: &Batch,
    rows: &Rows<'_>,
    chosen: Chosen<'a>,
    rest: (Found<'a>, Stop),
) -> Result<(Found<'a>, Stop), NoMemory>
    requires typed { IsTypedOver (types_of batch.now) (exprs.If arms.now other.now ty) }
    requires choices { parts.AreUntil (λ i. by_number.tried (length arms.now) 0 (Ok (length arms.now)) (map (λ arm. eval_at arm.0 batch.now i) arms.now)) rows.now chosen.choices.items chosen.stop }
    requires columns { parts.AreChosen (parts.arm_at arms.now other.now) batch.now rows.now chosen.choices.items ty.kind chosen.columns.items }
    requires count { length chosen.columns.items ≡ length arms.now }
    requires rest { IsUntil (eval_at other.now batch.now) (open_rows (by_number.other_than (length arms.now)) rows.now chosen.choices.items) (ty_of other.now).kind rest.0 rest.1 }
    ensures { IfOk result (λ out. IsUntil (eval_at (exprs.If arms.now other.now ty) batch.now) rows.now (ty_of (exprs.If arms.now other.now ty)).kind out.0 out.1) }
{
    let mut columns = chosen.columns;
    columns.push(rest)?;
    let numbers = chosen.choices.as_slice();
    let all = columns.as_slice();
    let (column, stop) = scatter(alloc, ty, rows, numbers, chosen.stop, all)?;
    Ok((Found::Made(column), stop))
}

/// The value of the first arm whose literal equals the subject, or of the other, whose column is `rest`.
pub(crate) fn switch_values<'a>(
    alloc: Global,
    subject: &Expr,
    arms: &[(Value, Expr)],
    other: &Expr,
    ty: Ty,
    batch: &Batch,
    rows: &Rows<'_>,
    subjects: &Found<'_>,
    chosen: Chosen<'a>,
    rest: (Found<'a>, Stop),
) -> Result<(Found<'a>, Stop), NoMemory>
    requires typed { IsTypedOver (types_of batch.now) (exprs.Switch subject.now arms.now other.now ty) }
    requires subjects { IsUntil (eval_at subject.now batch.now) rows.now (ty_of subject.now).kind subjects.now chosen.stop }
    requires choices { chosen.choices.items ≡ map (λ value. place_of value (parts.literals arms.now)) (found_values subjects.now) }
    requires columns { parts.AreChosen (parts.arm_at arms.now other.now) batch.now rows.now chosen.choices.items ty.kind chosen.columns.items }
    requires count { length chosen.columns.items ≡ length arms.now }
    requires rest { IsUntil (eval_at other.now batch.now) (open_rows (by_number.other_than (length arms.now)) rows.now chosen.choices.items) (ty_of other.now).kind rest.0 rest.1 }
    ensures { IfOk result (λ out. IsUntil (eval_at (exprs.Switch subject.now arms.now other.now ty) batch.now) rows.now (ty_of (exprs.Switch subject.now arms.now other.now ty)).kind out.0 out.1) }
{
    let mut columns = chosen.columns;
    columns.push(rest)?;
    let numbers = chosen.choices.as_slice();
    let all = columns.as_slice();
    let (column, stop) = scatter(alloc, ty, rows, numbers, chosen.stop, all)?;
    Ok((Found::Made(column), stop))
}

/// A cast.
pub(crate) fn cast_values<'a>(
    alloc: Global,
    input: &Expr,
    null_on_fail: bool,
    ty: Ty,
    batch: &Batch,
    rows: &Rows<'_>,
    values: &Found<'_>,
    stop: Stop,
) -> Result<(Found<'a>, Stop), NoMemory>
    requires typed { IsTypedOver (types_of batch.now) (exprs.Cast input.now null_on_fail ty) }
    requires fit { All (Fits (types_of batch.now)) (rows_of batch.now) }
    requires exist { All (λ row. row < batch.now.rows) rows.now }
    requires values { IsUntil (eval_at input.now batch.now) rows.now (ty_of input.now).kind values.now stop }
    ensures { IfOk result (λ out. IsUntil (eval_at (exprs.Cast input.now null_on_fail ty) batch.now) rows.now (ty_of (exprs.Cast input.now null_on_fail ty)).kind out.0 out.1) }
{
    let (column, its_stop) = cast_column(alloc, null_on_fail, input.ty().kind, ty, values)?;
    Ok((Found::Made(column), stop_of(its_stop, rows, stop)))
}
