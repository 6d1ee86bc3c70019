// The rows of set after set.
ghost use Rattle.std.specs.Prelude.{◌≡◌, ◌<◌, ◌≤◌, ◌==◌, ◌&&◌, [], ℕ, List, map, length, IfOk};
ghost use Rattle.std.specs.List.{AllByRecursion, range_with_len};
ghost use Rattle.plan_denote.specs.Join.{nulls};
ghost use Rattle.plan_denote.specs.Aggregate as aggregate;
ghost use Rattle.plan_denote.specs.Aggregate.{Entry};
ghost use Rattle.plan_denote.specs.Denote.{any_measure};
ghost use Rattle.plan_denote.specs.GroupSets as spec;
ghost use Rattle.group_laws.specs.Columns.{column, stream_at};
ghost use Rattle.set_states.specs.States.{IsKnown, AreKnown};
ghost use Rattle.set_rows.specs.Rows.{AreSized, row_at, seen};

use crate::columns::final_columns;
use crate::row::group_row;
use eval_values::EvalError;
use group_numbers::GroupKeys;
use group_states::Groups;
use group_tallies::Tallies;
use plan_leaves::Items;
use plan_typed::SetMeasure;
use set_states::{SetGroups, Sets, keepings_of};
use std::alloc::Global;
use sub_types::{Fault, NoMemory, Value};

/// Rows, and the fault that ends them, if there is one.
#[derive(Drop)]
pub struct Rows {
    pub rows: Vec<Items<Value>>,
    pub end: Option<Fault>,
}

/// The rows of all sets' groups in order, up to the first fault, which has this relation's number. There are so many grouping
/// expressions.
pub fn sets_rows(
    alloc: Global,
    relation: u32,
    width: usize,
    places: &[Vec<u32>],
    measures: &[SetMeasure],
    sets: Sets,
) -> Result<Rows, NoMemory>
    requires { (entries : List Entry) × AreKnown width measures.now (map (λ set. set.items) places.now) entries sets }
    ensures { (entries : List Entry) → AreKnown width measures.now (map (λ set. set.items) places.now) entries sets → IfOk result (λ out. seen out ≡ spec.rows_of_sets relation width (map (λ set. set.items) places.now) (map any_measure measures.now) entries) }
{
    let mut rows = Vec::new(alloc);
    let mut place = 0;
    for one in sets.sets {
        let numbered = set_number(alloc, places, place)?;
        let out = set_rows(
            alloc,
            relation,
            width,
            places[place].as_slice(),
            measures,
            &numbered,
            one,
        )?;
        let Rows {
            rows: mut more,
            end,
        } = out;
        rows.append(&mut more)?;
        let ended = end.is_some();
        if ended {
            return Ok(Rows { rows, end });
        }
        place += 1;
    }
    Ok(Rows { rows, end: None })
}

/// The number of a set, where there is more than one.
fn set_number(alloc: Global, places: &[Vec<u32>], place: usize) -> Result<Items<Value>, NoMemory>
    requires { place < length places.now }
    ensures { IfOk result (λ last. last ≡ spec.set_number (map (λ set. set.items) places.now) place) }
{
    let mut last = Items::new(alloc);
    if places.len() <= 1 {
        return Ok(last);
    }
    last.push(Value::Int(place as i64))?;
    Ok(last)
}

/// The rows of a set's groups.
fn set_rows(
    alloc: Global,
    relation: u32,
    width: usize,
    set: &[u32],
    measures: &[SetMeasure],
    numbered: &Items<Value>,
    one: SetGroups,
) -> Result<Rows, NoMemory>
    requires { (entries : List Entry) × IsKnown measures.now set.now entries one × (length entries ≤ aggregate.MAX_INPUT) }
    ensures { (entries : List Entry) → IsKnown measures.now set.now entries one → AllByRecursion (λ (entry : Entry). length entry.0 ≡ width) entries → IfOk result (λ out. seen out ≡ spec.rows_of_set relation width (map any_measure measures.now) entries set.now numbered.now) }
{
    let SetGroups { groups, firsts } = one;
    let Groups { keys, columns, .. } = groups;
    let alone = is_alone(set, &keys);
    if alone {
        return alone_rows(alloc, relation, width, measures, numbered);
    }
    let columns = final_columns(alloc, measures, keys.len(), columns, firsts.as_slice())?;
    let out = group_rows(
        alloc,
        relation,
        measures,
        numbered,
        keys.rows(),
        columns.as_slice(),
    )?;
    Ok(out)
}

/// Whether a set has no groups and there are no rows.
fn is_alone(set: &[u32], keys: &GroupKeys) -> bool
    ensures { result ≡ ((length set.now == 0) && (length keys.now.rows == 0)) }
{
    set.is_empty() && keys.len() == 0
}

/// The row of a set without groups, where there are no rows.
fn alone_rows(
    alloc: Global,
    relation: u32,
    width: usize,
    measures: &[SetMeasure],
    numbered: &Items<Value>,
) -> Result<Rows, NoMemory>
    ensures { IfOk result (λ out. seen out ≡ spec.rows_of_set relation width (map any_measure measures.now) [] [] numbered.now) }
{
    let keepings = keepings_of(alloc, measures)?;
    let groups = Groups::new(alloc, false, keepings.as_slice())?;
    let key = null_key(alloc, width)?;
    let mut keys = Vec::new(alloc);
    keys.push(key)?;
    let out = group_rows(
        alloc,
        relation,
        measures,
        numbered,
        keys.as_slice(),
        groups.columns.as_slice(),
    )?;
    Ok(out)
}

/// So many nulls.
fn null_key(alloc: Global, width: usize) -> Result<Items<Value>, NoMemory>
    ensures { IfOk result (λ key. key ≡ nulls width) }
{
    let mut key = Items::new(alloc);
    for _ in 0..width {
        key.push(Value::Null)?;
    }
    Ok(key)
}

/// The rows of groups, up to the first fault.
fn group_rows(
    alloc: Global,
    relation: u32,
    measures: &[SetMeasure],
    numbered: &Items<Value>,
    keys: &[Items<Value>],
    columns: &[Tallies],
) -> Result<Rows, NoMemory>
    requires { AreSized measures.now (length keys.now) columns.now }
    ensures { IfOk result (λ out. seen out ≡ stream_at relation (column (row_at measures.now keys.now columns.now numbered.now) (range_with_len 0 (length keys.now)))) }
{
    let mut rows = Vec::new(alloc);
    for group in 0..keys.len() {
        match group_row(alloc, measures, keys, columns, numbered, group) {
            Ok(row) => rows.push(row)?,
            Err(EvalError::NoMemory) => return Err(NoMemory),
            Err(EvalError::Fault(kind)) => {
                let fault = Fault { relation, kind };
                return Ok(Rows {
                    rows,
                    end: Some(fault),
                });
            }
        }
    }
    Ok(Rows { rows, end: None })
}
