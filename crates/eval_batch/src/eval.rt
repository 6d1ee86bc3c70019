//! What each kind of expression is worth at rows of a batch, by what its parts are worth at them.
ghost use Rattle.std.specs.Prelude.{◌≡◌, ◌+◌, ◌<◌, ◌≤◌, ℕ, true, length, map, Ok, Result, All, IfOk, IfSome};
ghost use Rattle.sub_types.specs.Kind.{IsKind};
ghost use Rattle.sub_types.specs.Value.{Fits};
ghost use Rattle.sub_types.specs.declared.fault.FaultKind.{FaultKind};
ghost use Rattle.sub_types.specs.declared.kind.Kind.TheVariants as kinds;
ghost use Rattle.plan_typed.specs.Types.{ty_of};
ghost use Rattle.plan_typed.specs.declared.expr.Expr.TheVariants as exprs;
ghost use Rattle.well_typed.specs.ExprTyped.{IsTypedOver};
ghost use Rattle.plan_denote.specs.Computed as computed;
ghost use Rattle.batch.specs.BatchRows.{rows_of, types_of};
ghost use Rattle.batch.specs.ColumnValues.{values_of};
ghost use Rattle.batch_nodes.specs.Chosen as chosen;
ghost use Rattle.batch_nodes.specs.Early as early_spec;
ghost use Rattle.batch_nodes.specs.Found.{IsUntil, found_values};
ghost use Rattle.batch_nodes.specs.Narrowed.{narrowed, open_rows};
ghost use Rattle.batch_nodes.specs.Options as sought;
ghost use Rattle.batch_nodes.specs.Options.{place_of};
ghost use Rattle.plan_typed.specs.declared.expr.Expr.{Expr};
ghost use Rattle.batch_nodes.specs.Evaluated.{eval_at, worth_at};
ghost use Rattle.batch_nodes.specs.Parts as parts;
ghost use Rattle.kernels.specs.declared.selection.Stop.TheVariants as stops;

use crate::leaves::{column, constant};
use crate::lists::{earlier, repeated};
use crate::nodes::{Chosen, Columns, call_values, cast_values, if_values, switch_values};
use crate::places::places_of;
use crate::quick::is_quick;
use among_constants::among_constants;
use batch::{Batch, Column};
use batch_calls::{join_all, look, rows_sought};
use batch_nodes::{Early, Found, decide, join, nothing, rows_choosing, rows_left};
use kernels::{Rows, Stop};
use plan_typed::{Expr, Func, Overflow};
use std::alloc::Global;
use sub_types::{NoMemory, Ty, Value};

/// The values at these rows before the first fault, and that fault.
#[cycle(eval)]
pub fn eval_rows<'a>(
    alloc: Global,
    e: &'a Expr,
    batch: &'a Batch,
    rows: &Rows<'_>,
) -> Result<(Found<'a>, Stop), NoMemory>
    requires typed { IsTypedOver (types_of batch.now) e.now }
    requires fit { All (Fits (types_of batch.now)) (rows_of batch.now) }
    requires exist { All (λ row. row < batch.now.rows) rows.now }
    ensures { IfOk result (λ out. IsUntil (eval_at e.now batch.now) rows.now (ty_of e.now).kind out.0 out.1) }
{
    match e {
        Expr::Const { value, ty } => Ok(constant(e, value, *ty, batch, rows)),
        Expr::Column { index, ty } => column(alloc, e, *index, *ty, batch, rows),
        Expr::Call {
            func,
            mode,
            args,
            ty,
        } => call(alloc, *func, *mode, args.as_slice(), *ty, batch, rows),
        Expr::If { arms, other, ty } => {
            let pairs = arms.as_slice();
            let last = other.get();
            let chosen = conditional(alloc, pairs, *ty, batch, rows)?;
            let numbers = chosen.choices.as_slice();
            let rest = chosen_column(alloc, pairs.len(), last, batch, rows, numbers)?;
            if_values(alloc, pairs, last, *ty, batch, rows, chosen, rest)
        }
        Expr::Switch {
            subject,
            arms,
            other,
            ty,
        } => {
            let cases = arms.as_slice();
            let first = subject.get();
            let default = other.get();
            let (subjects, stop) = eval_rows(alloc, first, batch, rows)?;
            let found = literal_columns(alloc, cases, *ty, batch, rows, &subjects, stop)?;
            let places = found.choices.as_slice();
            let others = chosen_column(alloc, cases.len(), default, batch, rows, places)?;
            switch_values(
                alloc, first, cases, default, *ty, batch, rows, &subjects, found, others,
            )
        }
        Expr::OneOf { value, options, ty } => {
            let listed = options.as_slice();
            let sought = value.get();
            let (values, stop) = eval_rows(alloc, sought, batch, rows)?;
            look_each(alloc, listed, sought, *ty, batch, rows, &values, stop)
        }
        Expr::Cast {
            input,
            null_on_fail,
            ty,
        } => cast(alloc, input.get(), *null_on_fail, *ty, batch, rows),
    }
}

/// A call.
#[cycle(eval)]
fn call<'a>(
    alloc: Global,
    func: Func,
    mode: Overflow,
    args: &'a [Expr],
    ty: Ty,
    batch: &'a Batch,
    rows: &Rows<'_>,
) -> Result<(Found<'a>, Stop), NoMemory>
    requires typed { IsTypedOver (types_of batch.now) (exprs.Call func mode args.now ty) }
    requires fit { All (Fits (types_of batch.now)) (rows_of batch.now) }
    requires exist { All (λ row. row < batch.now.rows) rows.now }
    ensures { IfOk result (λ out. IsUntil (eval_at (exprs.Call func mode args.now ty) batch.now) rows.now (ty_of (exprs.Call func mode args.now ty)).kind out.0 out.1) }
{
    match func {
        Func::And => early_call(alloc, Early::Truth(false), args, ty, batch, rows),
        Func::Or => early_call(alloc, Early::Truth(true), args, ty, batch, rows),
        Func::Coalesce => early_call(alloc, Early::NotNull, args, ty, batch, rows),
        _ => strict(alloc, func, mode, args, ty, batch, rows),
    }
}

/// A call that ends early: each argument at the rows that those before it leave open.
#[cycle(eval)]
fn early_call<'a>(
    alloc: Global,
    early: Early,
    args: &'a [Expr],
    ty: Ty,
    batch: &'a Batch,
    rows: &Rows<'_>,
) -> Result<(Found<'a>, Stop), NoMemory>
    requires valid_kind { IsKind ty.kind }
    requires of { early_spec.IsOfKind early ty.kind }
    requires kinds { All (λ arg. (ty_of arg).kind ≡ ty.kind) args.now }
    requires typed { All (IsTypedOver (types_of batch.now)) args.now }
    requires fit { All (Fits (types_of batch.now)) (rows_of batch.now) }
    requires exist { All (λ row. row < batch.now.rows) rows.now }
    ensures { IfOk result (λ out. IsUntil (λ i. early_spec.ends_early early (worth_at args.now batch.now i)) rows.now ty.kind out.0 out.1) }
{
    let column = Column::constant(alloc, ty, &nothing(early), rows.len())?;
    let mut state = (column, Stop::Never);
    for arg in args {
        state = early_step(alloc, early, arg, ty, batch, rows, &state.0, state.1)?;
    }
    Ok((Found::Made(state.0), state.1))
}

/// One more argument.
#[cycle(eval)]
fn early_step(
    alloc: Global,
    early: Early,
    arg: &Expr,
    ty: Ty,
    batch: &Batch,
    rows: &Rows<'_>,
    first: &Column,
    stop: Stop,
) -> Result<(Column, Stop), NoMemory>
    requires valid_kind { IsKind ty.kind }
    requires of { early_spec.IsOfKind early ty.kind }
    requires kind { (ty_of arg.now).kind ≡ ty.kind }
    requires first { first.now.ty ≡ ty }
    requires long { length (values_of first.now.values) ≤ length rows.now }
    requires typed { IsTypedOver (types_of batch.now) arg.now }
    requires fit { All (Fits (types_of batch.now)) (rows_of batch.now) }
    requires exist { All (λ row. row < batch.now.rows) rows.now }
    ensures until { IfOk result (λ out. (so_far : ℕ → computed.Computed) → parts.AreUntil so_far rows.now (values_of first.now.values) stop →
        parts.AreUntil (λ i. early_spec.one_more early (so_far i) (eval_at arg.now batch.now i)) rows.now (values_of out.0.values) out.1) }
    ensures ty { IfOk result (λ out. out.0.ty ≡ ty) }
{
    if let Some(column) = quick_step(alloc, early, arg, ty, batch, rows, first, stop)? {
        return Ok((column, Stop::Never));
    }
    let left = rows_left(alloc, early, first, rows)?;
    let at = Rows::listed(left.as_slice());
    let (rest, rest_stop) = eval_rows(alloc, arg, batch, &at)?;
    join(alloc, early, ty, rows, first, stop, &rest, rest_stop)
}

/// The same by whole columns, where the argument is evaluated sooner at all rows than at those that are left open.
#[cycle(eval)]
fn quick_step(
    alloc: Global,
    early: Early,
    arg: &Expr,
    ty: Ty,
    batch: &Batch,
    rows: &Rows<'_>,
    first: &Column,
    stop: Stop,
) -> Result<Option<Column>, NoMemory>
    requires of { early_spec.IsOfKind early ty.kind }
    requires typed { IsTypedOver (types_of batch.now) arg.now }
    requires fit { All (Fits (types_of batch.now)) (rows_of batch.now) }
    requires exist { All (λ row. row < batch.now.rows) rows.now }
    ensures until { IfOk result (λ found. IfSome found (λ column. (so_far : ℕ → computed.Computed) → parts.AreUntil so_far rows.now (values_of first.now.values) stop →
        parts.AreUntil (λ i. early_spec.one_more early (so_far i) (eval_at arg.now batch.now i)) rows.now (values_of column.values) stops.Never)) }
    ensures ty { IfOk result (λ found. IfSome found (λ column. column.ty ≡ ty)) }
{
    if !is_quick(arg) {
        return Ok(None);
    }
    let (all, all_stop) = eval_rows(alloc, arg, batch, rows)?;
    join_all(alloc, early, ty, first, stop, &all, all_stop)
}

/// A call whose arguments are all evaluated, each at the rows before the stops of those before it.
#[cycle(eval)]
fn strict<'a>(
    alloc: Global,
    func: Func,
    mode: Overflow,
    args: &'a [Expr],
    ty: Ty,
    batch: &'a Batch,
    rows: &Rows<'_>,
) -> Result<(Found<'a>, Stop), NoMemory>
    requires strict { parts.is_strict func ≡ true }
    requires typed { IsTypedOver (types_of batch.now) (exprs.Call func mode args.now ty) }
    requires fit { All (Fits (types_of batch.now)) (rows_of batch.now) }
    requires exist { All (λ row. row < batch.now.rows) rows.now }
    ensures { IfOk result (λ out. IsUntil (eval_at (exprs.Call func mode args.now ty) batch.now) rows.now (ty_of (exprs.Call func mode args.now ty)).kind out.0 out.1) }
{
    let columns = columns_of(alloc, args, batch, rows)?;
    call_values(alloc, func, mode, args, ty, batch, rows, &columns)
}

/// The columns of arguments.
#[cycle(eval)]
fn columns_of<'a>(
    alloc: Global,
    args: &'a [Expr],
    batch: &'a Batch,
    rows: &Rows<'_>,
) -> Result<Columns<'a>, NoMemory>
    requires typed { All (IsTypedOver (types_of batch.now)) args.now }
    requires fit { All (Fits (types_of batch.now)) (rows_of batch.now) }
    requires exist { All (λ row. row < batch.now.rows) rows.now }
    ensures { IfOk result (λ columns. parts.AreColumns args.now batch.now rows.now columns.found.items columns.len columns.stop) }
{
    let mut found = Vec::with_capacity(alloc, args.len())?;
    let mut len = rows.len();
    let mut stop = Stop::Never;
    for arg in args {
        let at = rows.first(len);
        let (column, its_stop) = eval_rows(alloc, arg, batch, &at)?;
        len = column.len();
        stop = earlier(its_stop, stop);
        found.push(column)?;
    }
    Ok(Columns { found, len, stop })
}

/// The arm that each row chooses by the arms' conditions, and the columns of the arms.
#[cycle(eval)]
fn conditional<'a>(
    alloc: Global,
    arms: &'a [(Expr, Expr)],
    ty: Ty,
    batch: &'a Batch,
    rows: &Rows<'_>,
) -> Result<Chosen<'a>, NoMemory>
    requires conditions { All (λ arm. IsTypedOver (types_of batch.now) arm.0) arms.now }
    requires values { All (λ arm. IsTypedOver (types_of batch.now) arm.1) arms.now }
    requires kinds { All (λ arm. (ty_of arm.1).kind ≡ ty.kind) arms.now }
    requires fit { All (Fits (types_of batch.now)) (rows_of batch.now) }
    requires exist { All (λ row. row < batch.now.rows) rows.now }
    ensures choices { IfOk result (λ out. parts.AreUntil (λ i. chosen.tried (length arms.now) 0 (Ok (length arms.now)) (map (λ arm. eval_at arm.0 batch.now i) arms.now)) rows.now out.choices.items out.stop) }
    ensures columns { IfOk result (λ out. (other : Expr) → parts.AreChosen (parts.arm_at arms.now other) batch.now rows.now out.choices.items ty.kind out.columns.items) }
    ensures count { IfOk result (λ out. length out.columns.items ≡ length arms.now) }
{
    let (choices, stop) = first_true(alloc, arms, batch, rows)?;
    let columns = arm_columns(alloc, arms, ty, batch, rows, choices.as_slice())?;
    Ok(Chosen {
        choices,
        stop,
        columns,
    })
}

/// The number of the first arm whose condition is true at each row, and how many arms there are where none is: each condition
/// at the rows at which no earlier one is true.
#[cycle(eval)]
fn first_true(
    alloc: Global,
    arms: &[(Expr, Expr)],
    batch: &Batch,
    rows: &Rows<'_>,
) -> Result<(Vec<usize>, Stop), NoMemory>
    requires typed { All (λ arm. IsTypedOver (types_of batch.now) arm.0) arms.now }
    requires fit { All (Fits (types_of batch.now)) (rows_of batch.now) }
    requires exist { All (λ row. row < batch.now.rows) rows.now }
    ensures { IfOk result (λ out. parts.AreUntil (λ i. chosen.tried (length arms.now) 0 (Ok (length arms.now)) (map (λ arm. eval_at arm.0 batch.now i) arms.now)) rows.now out.0.items out.1) }
{
    let choices = repeated(alloc, arms.len(), rows.len())?;
    let mut state = (choices, Stop::Never);
    let mut number = 0;
    for arm in arms {
        state = first_true_step(
            alloc,
            arms.len(),
            number,
            &arm.0,
            batch,
            rows,
            state.0.as_slice(),
            state.1,
        )?;
        number += 1;
    }
    Ok(state)
}

/// One more condition.
#[cycle(eval)]
fn first_true_step(
    alloc: Global,
    none: usize,
    number: usize,
    condition: &Expr,
    batch: &Batch,
    rows: &Rows<'_>,
    choices: &[usize],
    stop: Stop,
) -> Result<(Vec<usize>, Stop), NoMemory>
    requires long { length choices.now ≤ length rows.now }
    requires typed { IsTypedOver (types_of batch.now) condition.now }
    requires fit { All (Fits (types_of batch.now)) (rows_of batch.now) }
    requires exist { All (λ row. row < batch.now.rows) rows.now }
    ensures { IfOk result (λ out. (so_far : ℕ → Result ℕ FaultKind) → parts.AreUntil so_far rows.now choices.now stop →
        parts.AreUntil (λ i. narrowed (chosen.other_than none) (chosen.marked none number) (so_far i) (eval_at condition.now batch.now i)) rows.now out.0.items out.1) }
{
    let left = rows_choosing(alloc, none, choices, rows)?;
    let at = Rows::listed(left.as_slice());
    let (tests, tests_stop) = eval_rows(alloc, condition, batch, &at)?;
    decide(alloc, none, number, rows, choices, stop, &tests, tests_stop)
}

/// The columns of all arms, each at the rows that choose it.
#[cycle(eval)]
fn arm_columns<'a>(
    alloc: Global,
    arms: &'a [(Expr, Expr)],
    ty: Ty,
    batch: &'a Batch,
    rows: &Rows<'_>,
    choices: &[usize],
) -> Result<Vec<(Found<'a>, Stop)>, NoMemory>
    requires long { length choices.now ≤ length rows.now }
    requires typed { All (λ arm. IsTypedOver (types_of batch.now) arm.1) arms.now }
    requires kinds { All (λ arm. (ty_of arm.1).kind ≡ ty.kind) arms.now }
    requires fit { All (Fits (types_of batch.now)) (rows_of batch.now) }
    requires exist { All (λ row. row < batch.now.rows) rows.now }
    ensures columns { IfOk result (λ columns. (other : Expr) → parts.AreChosen (parts.arm_at arms.now other) batch.now rows.now choices.now ty.kind columns.items) }
    ensures count { IfOk result (λ columns. length columns.items ≡ length arms.now) }
{
    let mut columns = Vec::new(alloc);
    for arm in arms {
        let number = columns.len();
        let column = chosen_column(alloc, number, &arm.1, batch, rows, choices)?;
        columns.push(column)?;
    }
    Ok(columns)
}

/// An expression at the rows that choose its number.
#[cycle(eval)]
fn chosen_column<'a>(
    alloc: Global,
    number: usize,
    e: &'a Expr,
    batch: &'a Batch,
    rows: &Rows<'_>,
    choices: &[usize],
) -> Result<(Found<'a>, Stop), NoMemory>
    requires long { length choices.now ≤ length rows.now }
    requires typed { IsTypedOver (types_of batch.now) e.now }
    requires fit { All (Fits (types_of batch.now)) (rows_of batch.now) }
    requires exist { All (λ row. row < batch.now.rows) rows.now }
    ensures { IfOk result (λ out. IsUntil (eval_at e.now batch.now) (open_rows (chosen.other_than number) rows.now choices.now) (ty_of e.now).kind out.0 out.1) }
{
    let left = rows_choosing(alloc, number, choices, rows)?;
    let at = Rows::listed(left.as_slice());
    eval_rows(alloc, e, batch, &at)
}

/// The arm that each row chooses by its subject, and the columns of the arms.
#[cycle(eval)]
fn literal_columns<'a>(
    alloc: Global,
    arms: &'a [(Value, Expr)],
    ty: Ty,
    batch: &'a Batch,
    rows: &Rows<'_>,
    subjects: &Found<'_>,
    stop: Stop,
) -> Result<Chosen<'a>, NoMemory>
    requires long { length (found_values subjects.now) ≤ length rows.now }
    requires values { All (λ arm. IsTypedOver (types_of batch.now) arm.1) arms.now }
    requires kinds { All (λ arm. (ty_of arm.1).kind ≡ ty.kind) arms.now }
    requires fit { All (Fits (types_of batch.now)) (rows_of batch.now) }
    requires exist { All (λ row. row < batch.now.rows) rows.now }
    ensures choices { IfOk result (λ out. out.choices.items ≡ map (λ value. place_of value (parts.literals arms.now)) (found_values subjects.now)) }
    ensures stop { IfOk result (λ out. out.stop ≡ stop) }
    ensures columns { IfOk result (λ out. (other : Expr) → parts.AreChosen (parts.arm_at arms.now other) batch.now rows.now out.choices.items ty.kind out.columns.items) }
    ensures count { IfOk result (λ out. length out.columns.items ≡ length arms.now) }
{
    let choices = places_of(alloc, subjects, arms)?;
    let columns = case_columns(alloc, arms, ty, batch, rows, choices.as_slice())?;
    Ok(Chosen {
        choices,
        stop,
        columns,
    })
}

/// The columns of all arms, each at the rows that choose it.
#[cycle(eval)]
fn case_columns<'a>(
    alloc: Global,
    arms: &'a [(Value, Expr)],
    ty: Ty,
    batch: &'a Batch,
    rows: &Rows<'_>,
    choices: &[usize],
) -> Result<Vec<(Found<'a>, Stop)>, NoMemory>
    requires long { length choices.now ≤ length rows.now }
    requires typed { All (λ arm. IsTypedOver (types_of batch.now) arm.1) arms.now }
    requires kinds { All (λ arm. (ty_of arm.1).kind ≡ ty.kind) arms.now }
    requires fit { All (Fits (types_of batch.now)) (rows_of batch.now) }
    requires exist { All (λ row. row < batch.now.rows) rows.now }
    ensures columns { IfOk result (λ columns. (other : Expr) → parts.AreChosen (parts.arm_at arms.now other) batch.now rows.now choices.now ty.kind columns.items) }
    ensures count { IfOk result (λ columns. length columns.items ≡ length arms.now) }
{
    let mut columns = Vec::new(alloc);
    for arm in arms {
        let number = columns.len();
        let column = chosen_column(alloc, number, &arm.1, batch, rows, choices)?;
        columns.push(column)?;
    }
    Ok(columns)
}

/// Whether values are among the options: each option at the rows at which no earlier one equals the value.
#[cycle(eval)]
fn look_each<'a>(
    alloc: Global,
    options: &[Expr],
    value: &Expr,
    ty: Ty,
    batch: &Batch,
    rows: &Rows<'_>,
    values: &Found<'_>,
    stop: Stop,
) -> Result<(Found<'a>, Stop), NoMemory>
    requires typed { IsTypedOver (types_of batch.now) (exprs.OneOf value.now options.now ty) }
    requires values { IsUntil (eval_at value.now batch.now) rows.now (ty_of value.now).kind values.now stop }
    requires fit { All (Fits (types_of batch.now)) (rows_of batch.now) }
    requires exist { All (λ row. row < batch.now.rows) rows.now }
    ensures { IfOk result (λ out. IsUntil (eval_at (exprs.OneOf value.now options.now ty) batch.now) rows.now (ty_of (exprs.OneOf value.now options.now ty)).kind out.0 out.1) }
{
    if let Some(column) = among_constants(alloc, ty, options, values)? {
        return Ok((Found::Made(column), stop));
    }
    let answers = Column::constant(alloc, ty, &Value::Bool(false), values.len())?;
    let mut state = (answers, stop);
    for option in options {
        state = look_step(alloc, option, ty, batch, rows, values, &state.0, state.1)?;
    }
    Ok((Found::Made(state.0), state.1))
}

/// One more option.
#[cycle(eval)]
fn look_step(
    alloc: Global,
    option: &Expr,
    ty: Ty,
    batch: &Batch,
    rows: &Rows<'_>,
    values: &Found<'_>,
    answers: &Column,
    stop: Stop,
) -> Result<(Column, Stop), NoMemory>
    requires kind { ty.kind ≡ kinds.Bool }
    requires of { answers.now.ty.kind ≡ kinds.Bool }
    requires same { length (values_of answers.now.values) ≤ length (found_values values.now) }
    requires long { length (values_of answers.now.values) ≤ length rows.now }
    requires typed { IsTypedOver (types_of batch.now) option.now }
    requires fit { All (Fits (types_of batch.now)) (rows_of batch.now) }
    requires exist { All (λ row. row < batch.now.rows) rows.now }
    ensures until { IfOk result (λ out. (so_far : ℕ → Result sought.Sought FaultKind) → parts.AreUntil so_far rows.now (sought.paired (found_values values.now) (values_of answers.now.values)) stop →
        parts.AreUntil (λ i. narrowed sought.is_found sought.looked (so_far i) (eval_at option.now batch.now i)) rows.now (sought.paired (found_values values.now) (values_of out.0.values)) out.1) }
    ensures ty { IfOk result (λ out. out.0.ty ≡ ty) }
    ensures same { IfOk result (λ out. length (values_of out.0.values) ≤ length (found_values values.now)) }
{
    let left = rows_sought(alloc, values, answers, rows)?;
    let at = Rows::listed(left.as_slice());
    let (options, options_stop) = eval_rows(alloc, option, batch, &at)?;
    look(
        alloc,
        ty,
        rows,
        values,
        answers,
        stop,
        &options,
        options_stop,
    )
}

/// A cast.
#[cycle(eval)]
fn cast<'a>(
    alloc: Global,
    input: &'a Expr,
    null_on_fail: bool,
    ty: Ty,
    batch: &'a Batch,
    rows: &Rows<'_>,
) -> Result<(Found<'a>, Stop), NoMemory>
    requires typed { IsTypedOver (types_of batch.now) (exprs.Cast input.now null_on_fail ty) }
    requires fit { All (Fits (types_of batch.now)) (rows_of batch.now) }
    requires exist { All (λ row. row < batch.now.rows) rows.now }
    ensures { IfOk result (λ out. IsUntil (eval_at (exprs.Cast input.now null_on_fail ty) batch.now) rows.now (ty_of (exprs.Cast input.now null_on_fail ty)).kind out.0 out.1) }
{
    let (values, stop) = eval_rows(alloc, input, batch, rows)?;
    cast_values(alloc, input, null_on_fail, ty, batch, rows, &values, stop)
}
