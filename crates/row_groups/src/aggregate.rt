// Aggregates: the rows are grouped by their keys, and a group's measures are computed from the entries that have its key.
ghost use Rattle.std.specs.Prelude.{◌≡◌, ◌++◌, map, length, nat_le, IfOk};
ghost use Rattle.plan_denote.specs.Aggregate as spec;
ghost use Rattle.plan_denote.specs.Denote.{measure_of};
ghost use Rattle.plan_denote.specs.Eval.{eval};
ghost use Rattle.plan_denote.specs.GroupSets as sets;
ghost use Rattle.plan_denote.specs.Rows.{each_row as spec_each_row};
ghost use Rattle.row_groups.specs.Measured.{final_in, tallies_from};
ghost use Rattle.row_steps.specs.Seen.{seen, Comes, ComesAtMost};
ghost use Rattle.sub_types.specs.Stream.{rows_alone};

use crate::entries::{Entry, entries_of, keys_in, members_in};
use crate::measures::AnyMeasure;
use eval_values::EvalError;
use plan_leaves::{CopyIn, Items};
use plan_typed::{Expr, TypedMeasure};
use row_sorts::distinct_values;
use row_steps::{RowStream, Stream, each_row, ended, ended_at, row_and};
use row_tallies::{final_of, not_null};
use std::alloc::Global;
use sub_types::{FaultKind, NoMemory, Value};

/// The most rows of the input.
const MAX_INPUT: usize = 1 << 40;

/// A row for each group of the input's rows, in the order in which the groups appear.
pub fn aggregated(
    alloc: Global,
    number: u32,
    groups: &[Expr],
    measures: &[TypedMeasure],
    input: RowStream,
) -> Result<RowStream, NoMemory>
    ensures { IfOk result (λ s. seen s ≡ spec.aggregated number (map eval groups.now) (map measure_of measures.now) (seen input)) }
{
    let entries = entries_of(alloc, number, groups, measures, input)?;
    if entries.end.is_some() {
        return Ok(ended(alloc, entries.end));
    }
    rows_of_entries(alloc, number, groups, measures, entries.rows.as_slice())
}

fn rows_of_entries(
    alloc: Global,
    number: u32,
    groups: &[Expr],
    measures: &[TypedMeasure],
    entries: &[Entry],
) -> Result<RowStream, NoMemory>
    ensures { IfOk result (λ s. seen s ≡ spec.rows_of_summary number (map measure_of measures.now) (spec.summary (map eval groups.now) (map measure_of measures.now) entries.now)) }
{
    if !are_few(entries) {
        return Ok(ended_at(number, Items::new(alloc), FaultKind::TooManyRows));
    }
    let keys = keys_in(alloc, groups, Items::new(alloc), entries)?;
    group_rows(alloc, number, measures, entries, keys, &Items::new(alloc))
}

/// Whether there are no more rows than an aggregate takes.
pub fn are_few(entries: &[Entry]) -> bool
    ensures { result ≡ nat_le (length entries.now) spec.MAX_INPUT }
{
    entries.len() <= MAX_INPUT
}

/// The rows of the groups of these keys in order, up to the first fault: a key, its measures, and then these values.
pub fn group_rows<M: AnyMeasure>(
    alloc: Global,
    number: u32,
    measures: &[M],
    entries: &[Entry],
    keys: Items<Items<Value>>,
    last: &Items<Value>,
) -> Result<RowStream, NoMemory>
    ensures { IfOk result (λ s. seen s ≡ spec_each_row number (λ key. sets.set_row (map M.as_any measures.now) last.now (sets.group_over (map M.as_any measures.now) entries.now key)) (rows_alone keys)) }
{
    let keys = Stream {
        rows: keys,
        end: None,
    };
    each_row(
        alloc,
        number,
        keys,
        |key| group_row(alloc, measures, entries, key, last),
    )
}

fn group_row<M: AnyMeasure>(
    alloc: Global,
    measures: &[M],
    entries: &[Entry],
    key: Items<Value>,
    last: &Items<Value>,
) -> Result<Option<Items<Value>>, EvalError>
    ensures { ComesAtMost result (sets.set_row (map M.as_any measures.now) last.now (sets.group_over (map M.as_any measures.now) entries.now key)) }
{
    let values = finals(alloc, measures, entries, key.as_slice())?;
    Ok(Some(joined_row(alloc, key, values, last)?))
}

fn joined_row(
    alloc: Global,
    key: Items<Value>,
    values: Items<Value>,
    last: &Items<Value>,
) -> Result<Items<Value>, NoMemory>
    ensures { IfOk result (λ row. row ≡ key ++ values ++ last.now) }
{
    row_and(key, row_and(values, last.copy_in(alloc)?)?)
}

/// The values of all measures for the group of a key, or the first fault.
fn finals<M: AnyMeasure>(
    alloc: Global,
    measures: &[M],
    entries: &[Entry],
    key: &[Value],
) -> Result<Items<Value>, EvalError>
    ensures { Comes result (spec.finals (map (λ one. one.measure) (map M.as_any measures.now)) (tallies_from entries.now key.now 0 (map M.as_any measures.now))) }
{
    let mut values = Items::new(alloc);
    for (place, one) in measures.iter().enumerate() {
        let members = members_in(alloc, entries, key, place)?;
        values.push(measured(alloc, one, members)?)?;
    }
    Ok(values)
}

/// What a measure makes of what it takes of a group.
fn measured<M: AnyMeasure>(
    alloc: Global,
    one: &M,
    members: Items<Value>,
) -> Result<Value, EvalError>
    ensures { Comes result (final_in (M.as_any one.now) members) }
{
    let members = once(alloc, one.is_distinct(), members)?;
    let members = not_null(alloc, members)?;
    let measure = one.measure();
    Ok(final_of(measure.func, measure.ty.kind, members)?)
}

/// Each value once, where that is asked for.
fn once(alloc: Global, is_distinct: bool, members: Items<Value>) -> Result<Items<Value>, NoMemory>
    ensures { IfOk result (λ found. found ≡ sets.once is_distinct members) }
{
    if is_distinct {
        distinct_values(alloc, members)
    } else {
        Ok(members)
    }
}
