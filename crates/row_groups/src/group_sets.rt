// Aggregates over several sets of their groups.
ghost use Rattle.std.specs.List.{list_any};
ghost use Rattle.std.specs.Prelude.{◌≡◌, ◌==◌, ◌<◌, map, length, IfOk};
ghost use Rattle.plan_denote.specs.Denote.{any_measure};
ghost use Rattle.plan_denote.specs.Eval.{eval};
ghost use Rattle.plan_denote.specs.GroupSets as spec;
ghost use Rattle.row_groups.specs.Measured.{key_value};
ghost use Rattle.row_steps.specs.Seen.{seen};

use crate::aggregate::{are_few, group_rows};
use crate::entries::{Entry, entries_of, keys_in};
use plan_leaves::{CopyIn, Items};
use plan_typed::{Expr, SetMeasure};
use row_steps::{RowStream, ended, ended_at, followed_by, map_of, nulls, value_at};
use std::alloc::Global;
use sub_types::{FaultKind, NoMemory, Value};

/// The rows of set after set, up to the first fault. A set is the places of some grouping expressions; the others are null in
/// its rows, and where there are several sets, each row ends with the number of its set.
pub fn grouping_sets(
    alloc: Global,
    number: u32,
    groups: &[Expr],
    sets: &[Items<u32>],
    measures: &[SetMeasure],
    input: RowStream,
) -> Result<RowStream, NoMemory>
    ensures { IfOk result (λ s. seen s ≡ spec.grouping_sets number (map eval groups.now) sets.now (map any_measure measures.now) (seen input)) }
{
    let entries = entries_of(alloc, number, groups, measures, input)?;
    if entries.end.is_some() {
        return Ok(ended(alloc, entries.end));
    }
    rows_of_sets(
        alloc,
        number,
        groups.len(),
        sets,
        measures,
        entries.rows.as_slice(),
    )
}

fn rows_of_sets(
    alloc: Global,
    number: u32,
    width: usize,
    sets: &[Items<u32>],
    measures: &[SetMeasure],
    entries: &[Entry],
) -> Result<RowStream, NoMemory>
    ensures { IfOk result (λ s. seen s ≡ spec.rows_of_sets number width sets.now (map any_measure measures.now) entries.now) }
{
    if !are_few(entries) {
        return Ok(ended_at(number, Items::new(alloc), FaultKind::TooManyRows));
    }
    let mut all = ended(alloc, None);
    for (place, set) in sets.iter().enumerate() {
        let last = set_number(alloc, sets, place)?;
        let rows = rows_of_set(
            alloc,
            number,
            width,
            set.as_slice(),
            measures,
            entries,
            last,
        )?;
        all = followed_by(all, rows)?;
    }
    Ok(all)
}

/// The number of a set, where there is more than one.
fn set_number(alloc: Global, sets: &[Items<u32>], place: usize) -> Result<Items<Value>, NoMemory>
    requires { place < length sets.now }
    ensures { IfOk result (λ last. last ≡ spec.set_number sets.now place) }
{
    let mut last = Items::new(alloc);
    if sets.len() <= 1 {
        return Ok(last);
    }
    last.push(Value::Int(place as i64))?;
    Ok(last)
}

/// The rows of a set's groups.
fn rows_of_set(
    alloc: Global,
    number: u32,
    width: usize,
    set: &[u32],
    measures: &[SetMeasure],
    entries: &[Entry],
    last: Items<Value>,
) -> Result<RowStream, NoMemory>
    ensures { IfOk result (λ s. seen s ≡ spec.rows_of_set number width (map any_measure measures.now) entries.now set.now last) }
{
    let own = entries_in(alloc, set, entries)?;
    let keys = keys_in(alloc, set, nulls(alloc, width)?, own.as_slice())?;
    group_rows(alloc, number, measures, own.as_slice(), keys, &last)
}

/// The entries with their keys in a set.
fn entries_in(alloc: Global, set: &[u32], entries: &[Entry]) -> Result<Items<Entry>, NoMemory>
    ensures { IfOk result (λ own. own ≡ map (spec.entry_in set.now) entries.now) }
{
    map_of(alloc, entries, |entry| entry_in(alloc, set, entry))
}

fn entry_in(alloc: Global, set: &[u32], entry: &Entry) -> Result<Entry, NoMemory>
    ensures { IfOk result (λ own. own ≡ spec.entry_in set.now entry.now) }
{
    let key = key_over(alloc, set, entry.0.as_slice())?;
    Ok((key, entry.1.copy_in(alloc)?))
}

/// A key in a set: null for the groups that the set lacks.
fn key_over(alloc: Global, set: &[u32], key: &[Value]) -> Result<Items<Value>, NoMemory>
    ensures { IfOk result (λ own. own ≡ spec.key_over set.now key.now) }
{
    let mut own = Items::new(alloc);
    for place in 0..key.len() {
        let value = value_over(alloc, set, key, place)?;
        own.push(value)?;
    }
    Ok(own)
}

fn value_over(alloc: Global, set: &[u32], key: &[Value], place: usize) -> Result<Value, NoMemory>
    ensures { IfOk result (λ value. value ≡ key_value set.now key.now place) }
{
    if holds(set, place) {
        value_at(alloc, key, place)
    } else {
        Ok(Value::Null)
    }
}

/// Whether a place is one of a set's.
fn holds(set: &[u32], place: usize) -> bool
    ensures { result ≡ list_any (λ one. one == place) set.now }
{
    set.iter().any(|one| *one as usize == place)
}
