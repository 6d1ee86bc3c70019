// Rows as the keys of their groups, with what each measure takes of them.
ghost use Rattle.std.specs.List.{filter_map};
ghost use Rattle.std.specs.Option.{option_map};
ghost use Rattle.std.specs.Prelude.{◌≡◌, ◌++◌, ◌∷◌, [], None, map, IfOk, OnOk, slice_index_or};
ghost use Rattle.eval_values.specs.Gives.{Gives};
ghost use Rattle.plan_denote.specs.Aggregate as spec;
ghost use Rattle.plan_denote.specs.Denote.{measure_of};
ghost use Rattle.plan_denote.specs.Eval.{eval};
ghost use Rattle.plan_denote.specs.Rows.{collect, each_row as spec_each_row};
ghost use Rattle.row_steps.specs.Seen.{seen, Comes, ComesAtMost};

use crate::measures::AnyMeasure;
use eval_row::{PlainRow, eval_expr};
use eval_values::{EvalError, is_true};
use plan_leaves::{CopyIn, Items};
use plan_typed::{Expr, TypedMeasure};
use row_sorts::{distinct_rows, is_same_row};
use row_steps::{RowStream, Stream, collect_of, condition_at, each_row, map_of, values_at};
use std::alloc::Global;
use sub_types::{NoMemory, Value};

/// The key of a row's group, and what each measure takes of the row.
pub type Entry = (Items<Value>, Items<Option<Value>>);

/// The entries of rows, up to the first fault.
pub fn entries_of<M: AnyMeasure>(
    alloc: Global,
    number: u32,
    groups: &[Expr],
    measures: &[M],
    input: RowStream,
) -> Result<Stream<Entry>, NoMemory>
    ensures { IfOk result (λ s. seen s ≡ spec_each_row number (spec.entry_of (map eval groups.now) (map (λ one. (M.as_any one).measure) measures.now)) (seen input)) }
{
    each_row(
        alloc,
        number,
        input,
        |row| entry_of(alloc, groups, measures, row.as_slice()),
    )
}

/// The grouping expressions from left to right, and then each measure's filter and argument.
fn entry_of<M: AnyMeasure>(
    alloc: Global,
    groups: &[Expr],
    measures: &[M],
    row: &[Value],
) -> Result<Option<Entry>, EvalError>
    ensures { ComesAtMost result (spec.entry_of (map eval groups.now) (map (λ one. (M.as_any one).measure) measures.now) row.now) }
{
    let key = values_at(alloc, groups, &PlainRow::new(row))?;
    let members = members_at(alloc, measures, row)?;
    Ok(Some((key, members)))
}

fn members_at<M: AnyMeasure>(
    alloc: Global,
    measures: &[M],
    row: &[Value],
) -> Result<Items<Option<Value>>, EvalError>
    ensures { Comes result (collect (map (spec.member_at row.now) (map (λ one. (M.as_any one).measure) measures.now))) }
{
    collect_of(alloc, measures, |one| member_at(alloc, one.measure(), row))
}

/// What a measure takes of a row: the argument's value where the filter is true.
fn member_at(
    alloc: Global,
    measure: &TypedMeasure,
    row: &[Value],
) -> Result<Option<Value>, EvalError>
    ensures { Comes result (spec.member_at row.now (measure_of measure.now)) }
{
    let test = condition_at(alloc, &measure.filter, &PlainRow::new(row))?;
    if !is_true(&test) {
        return Ok(None);
    }
    Ok(Some(argument_at(alloc, &measure.arg, row)?))
}

/// The value of an argument; without one, each row stands for true.
fn argument_at(alloc: Global, arg: &Option<Expr>, row: &[Value]) -> Result<Value, EvalError>
    ensures { Gives result (spec.argument_of (option_map eval arg.now) row.now) }
{
    match arg {
        Some(arg) => eval_expr(alloc, arg, &PlainRow::new(row)),
        None => Ok(Value::Bool(true)),
    }
}

/// The keys of the groups, each at its first appearance. Without grouping expressions there is one group, of the key that is
/// given for that, also for no entries.
pub fn keys_in<A>(
    alloc: Global,
    groups: &[A],
    alone: Items<Value>,
    entries: &[Entry],
) -> Result<Items<Items<Value>>, NoMemory>
    ensures { IfOk result (λ keys. keys ≡ spec.keys_in groups.now alone entries.now) }
{
    if groups.is_empty() {
        return one_key(alloc, alone);
    }
    let keys = map_of(alloc, entries, |entry| entry.0.copy_in(alloc))?;
    distinct_rows(alloc, keys)
}

fn one_key(alloc: Global, key: Items<Value>) -> Result<Items<Items<Value>>, NoMemory>
    ensures { IfOk result (λ keys. keys ≡ key ∷ []) }
{
    let mut keys = Items::new(alloc);
    keys.push(key)?;
    Ok(keys)
}

/// What the measure at a place takes of the rows of a group, nulls among them.
pub fn members_in(
    alloc: Global,
    entries: &[Entry],
    key: &[Value],
    place: usize,
) -> Result<Items<Value>, NoMemory>
    ensures { IfOk result (λ members. members ≡ spec.members_in entries.now key.now place) }
{
    let mut members = Items::new(alloc);
    for entry in entries {
        if is_same_row(key, entry.0.as_slice()) {
            push_member(alloc, entry.1.as_slice(), place, &mut members)?;
        }
    }
    Ok(members)
}

/// Adds what the measure at a place takes, if anything.
fn push_member(
    alloc: Global,
    taken: &[Option<Value>],
    place: usize,
    members: &mut Items<Value>,
) -> Result<(), NoMemory>
    ensures { OnOk result (members.new ≡ members.old ++ filter_map (λ one. one) (slice_index_or taken.now place None ∷ [])) }
{
    if let Some(Some(value)) = taken.get(place) {
        members.push(value.copy(alloc)?)?;
    }
    Ok(())
}
