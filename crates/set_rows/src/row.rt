// The row of a group.
ghost use Rattle.std.specs.Prelude.{◌≡◌, ◌<◌, ◌≤◌, ◌++◌, [], map, length, slice_index_or, All, IfOk};
ghost use Rattle.plan_denote.specs.Aggregate as aggregate;
ghost use Rattle.group_columns.specs.Columns.{count_in};
ghost use Rattle.group_tallies.specs.Kept.{keeping_in, tallies_in};
ghost use Rattle.aggregate.specs.Finals.{Makes, finals_at};
ghost use Rattle.set_states.specs.States.{keeping, measure_in};
ghost use Rattle.set_rows.specs.Rows.{row_at};

use eval_values::EvalError;
use group_tallies::Tallies;
use plan_leaves::{CopyIn, Items};
use plan_typed::SetMeasure;
use std::alloc::Global;
use sub_types::{NoMemory, Value};

/// The row of a group: its key, what the measures give, and the number of its set.
pub(crate) fn group_row(
    alloc: Global,
    measures: &[SetMeasure],
    keys: &[Items<Value>],
    columns: &[Tallies],
    numbered: &Items<Value>,
    group: usize,
) -> Result<Items<Value>, EvalError>
    requires group { group < length keys.now }
    requires kinds { map keeping_in columns.now ≡ map keeping measures.now }
    requires sized { All (λ tallies. length (tallies_in tallies) ≡ length keys.now) columns.now }
    requires few { All (λ tallies. count_in (tallies_in tallies) ≤ aggregate.MAX_INPUT) columns.now }
    ensures { Makes result (row_at measures.now keys.now columns.now numbered.now group) }
{
    match finals(alloc, measures, columns, group) {
        Ok(values) => {
            let key = key_at(alloc, keys, group)?;
            let last = numbered.copy_in(alloc)?;
            let row = joined(key, values, last)?;
            Ok(row)
        }
        Err(error) => Err(error),
    }
}

/// The key of a group.
fn key_at(alloc: Global, keys: &[Items<Value>], group: usize) -> Result<Items<Value>, NoMemory>
    requires { group < length keys.now }
    ensures { IfOk result (λ key. key ≡ slice_index_or keys.now group []) }
{
    keys[group].copy_in(alloc)
}

/// A key, then values, and then others.
fn joined(
    key: Items<Value>,
    values: Items<Value>,
    last: Items<Value>,
) -> Result<Items<Value>, NoMemory>
    ensures { IfOk result (λ row. row ≡ key ++ values ++ last) }
{
    let mut row = key.into_vec();
    row.append(&mut values.into_vec())?;
    row.append(&mut last.into_vec())?;
    Ok(Items::from_vec(row))
}

/// What the measures give for a group, up to the first fault.
fn finals(
    alloc: Global,
    measures: &[SetMeasure],
    columns: &[Tallies],
    group: usize,
) -> Result<Items<Value>, EvalError>
    requires kinds { map keeping_in columns.now ≡ map keeping measures.now }
    requires group { All (λ tallies. group < length (tallies_in tallies)) columns.now }
    requires few { All (λ tallies. count_in (tallies_in tallies) ≤ aggregate.MAX_INPUT) columns.now }
    ensures { Makes result (finals_at group (map measure_in measures.now) columns.now) }
{
    let mut values = Items::new(alloc);
    let mut place = 0;
    for one in measures {
        let measure = &one.measure;
        match columns[place].final_at(alloc, group, measure.func, measure.ty.kind) {
            Ok(value) => values.push(value)?,
            Err(error) => return Err(error),
        }
        place += 1;
    }
    Ok(values)
}
