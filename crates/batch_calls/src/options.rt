//! Whether values are among options that are tried one after the other.
ghost use Rattle.std.specs.Prelude.{◌≡◌, ◌≤◌, length, true, IfOk};
ghost use Rattle.sub_types.specs.declared.value.Value.TheVariants.{Null};
ghost use Rattle.sub_types.specs.declared.kind.Kind.TheVariants as kinds;
ghost use Rattle.plan_denote.specs.Logic as logic;
ghost use Rattle.batch.specs.ColumnValues.{values_of};
ghost use Rattle.batch_nodes.specs.Found.{found_values};
ghost use Rattle.batch_nodes.specs.Narrowed.{joined, open_rows, IsStep};
ghost use Rattle.batch_nodes.specs.Options as spec;

use batch::{Column, ColumnBuilder};
use batch_nodes::{Found, three_valued};
use eval_values::{is_null, is_same};
use kernels::{Rows, Stop};
use std::alloc::Global;
use sub_types::{NoMemory, Ty, Value};

/// The rows whose values aren't found yet: those whose answer isn't true.
pub fn rows_sought(
    alloc: Global,
    values: &Found<'_>,
    answers: &Column,
    rows: &Rows<'_>,
) -> Result<Vec<u64>, NoMemory>
    requires same { length (values_of answers.now.values) ≤ length (found_values values.now) }
    requires long { length (values_of answers.now.values) ≤ length rows.now }
    ensures { IfOk result (λ left. left.items ≡ open_rows spec.is_found rows.now (spec.paired (found_values values.now) (values_of answers.now.values))) }
{
    let mut left = Vec::new(alloc);
    for i in 0..answers.values.len() {
        let answer = answers.values.value_at(alloc, i)?;
        if !is_answer(&answer) {
            left.push(rows.row_at(i))?;
        }
    }
    Ok(left)
}

/// The answers after one more option, up to the first row at which its value is missing, and the stop there.
pub fn look(
    alloc: Global,
    ty: Ty,
    rows: &Rows<'_>,
    values: &Found<'_>,
    answers: &Column,
    stop: Stop,
    options: &Found<'_>,
    options_stop: Stop,
) -> Result<(Column, Stop), NoMemory>
    requires kind { ty.kind ≡ kinds.Bool }
    requires same { length (values_of answers.now.values) ≤ length (found_values values.now) }
    requires long { length (values_of answers.now.values) ≤ length rows.now }
    requires of { answers.now.ty.kind ≡ kinds.Bool }
    ensures values { IfOk result (λ out. spec.paired (found_values values.now) (values_of out.0.values) ≡ (joined spec.is_found spec.looked rows.now (spec.paired (found_values values.now) (values_of answers.now.values)) stop (found_values options.now) options_stop).values) }
    ensures stop { IfOk result (λ out. out.1 ≡ (joined spec.is_found spec.looked rows.now (spec.paired (found_values values.now) (values_of answers.now.values)) stop (found_values options.now) options_stop).stop) }
    ensures ty { IfOk result (λ out. out.0.ty ≡ ty) }
    ensures same { IfOk result (λ out. length (values_of out.0.values) ≤ length (found_values values.now)) }
{
    let mut built = ColumnBuilder::new(alloc, ty);
    let mut used = 0;
    for i in 0..answers.values.len() {
        let value = values.value_at(alloc, i)?;
        let answer = answers.values.value_at(alloc, i)?;
        match next_answer(alloc, &value, answer, options, used)? {
            Some((answer, now_used)) => {
                built.push(&answer)?;
                used = now_used;
            }
            None => return Ok((built.finish(), options_stop)),
        }
    }
    Ok((built.finish(), stop))
}

/// The answer of one row, and how many options' values are used then, unless its own is missing.
fn next_answer(
    alloc: Global,
    value: &Value,
    answer: Value,
    options: &Found<'_>,
    used: usize,
) -> Result<Option<(Value, usize)>, NoMemory>
    ensures { IfOk result (λ next. spec.IsAnswer value.now answer (found_values options.now) used next) }
{
    if is_answer(&answer) {
        return Ok(Some((answer, used)));
    }
    if used >= options.len() {
        return Ok(None);
    }
    let option = options.value_at(alloc, used)?;
    Ok(Some((
        three_valued(true, &answer, &equality(value, &option)),
        used + 1,
    )))
}

/// Whether it is true.
fn is_answer(answer: &Value) -> bool
    ensures { result ≡ logic.is_truth true answer.now }
{
    matches!(answer, Value::Bool(true))
}

/// Whether two values are equal, null where one is null.
fn equality(a: &Value, b: &Value) -> Value
    ensures { result ≡ spec.equality a.now b.now }
{
    if is_null(a) || is_null(b) {
        Value::Null
    } else {
        Value::Bool(is_same(a, b))
    }
}
