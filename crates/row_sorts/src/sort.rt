// Sorts.
ghost use Rattle.std.specs.Ordering.{bool_cmp};
ghost use Rattle.plan_denote.specs.Computed.{is_null};
ghost use Rattle.plan_denote.specs.Rows.{values_at};
ghost use Rattle.std.specs.Prelude.{◌≡◌, map, IfOk, OnOk, if◌then◌else◌};
ghost use Rattle.row_sorts.specs.Sorting.{by_key};
ghost use Rattle.std.specs.Ordering.{on};
ghost use Rattle.plan_denote.specs.Denote.{direction_of};
ghost use Rattle.plan_denote.specs.Eval.{eval};
ghost use Rattle.plan_denote.specs.Sort as spec;
ghost use Rattle.row_steps.specs.Seen.{seen, or_null, Comes, ComesAtMost};

use eval_row::{PlainRow, eval_expr};
use eval_values::{EvalError, compare};
use plan_leaves::Items;
use plan_typed::SortKey;
use row_steps::{RowStream, Stream, collect_of, each_row, ended, map_into};
use std::alloc::Global;
use std::cmp::Ordering;
use sub_types::{NoMemory, Value};

/// The values of a row's keys, and the row.
type Keyed = (Items<Value>, Items<Value>);

/// The rows in order of their keys; rows with equal keys keep their order.
pub fn sorted(
    alloc: Global,
    number: u32,
    keys: &[SortKey],
    input: RowStream,
) -> Result<RowStream, NoMemory>
    ensures { IfOk result (λ s. seen s ≡ spec.sorted number (map (λ key. eval key.expr) keys.now) (map direction_of keys.now) (seen input)) }
{
    let keyed = each_row(alloc, number, input, |row| keyed_row(alloc, keys, row))?;
    if keyed.end.is_some() {
        return Ok(ended(alloc, keyed.end));
    }
    Ok(Stream {
        rows: rows_in_order(alloc, keys, keyed.rows)?,
        end: None,
    })
}

fn keyed_row(alloc: Global, keys: &[SortKey], row: Items<Value>) -> Result<Option<Keyed>, EvalError>
    ensures { ComesAtMost result (spec.keyed (map (λ key. eval key.expr) keys.now) row) }
{
    let key = keys_at(alloc, keys, row.as_slice())?;
    Ok(Some((key, row)))
}

/// The values of the keys at a row from left to right, or the first fault.
fn keys_at(alloc: Global, keys: &[SortKey], row: &[Value]) -> Result<Items<Value>, EvalError>
    ensures { Comes result (values_at (map (λ key. eval key.expr) keys.now) row.now) }
{
    collect_of(
        alloc,
        keys,
        |key| eval_expr(alloc, &key.expr, &PlainRow::new(row)),
    )
}

/// The rows in order of their keys.
fn rows_in_order(
    alloc: Global,
    keys: &[SortKey],
    rows: Items<Keyed>,
) -> Result<Items<Items<Value>>, NoMemory>
    ensures { IfOk result (λ found. found ≡ spec.sorted_rows (map direction_of keys.now) rows) }
{
    let mut rows = rows.into_vec();
    put_in_order(keys, &mut rows)?;
    second_of(alloc, rows)
}

fn put_in_order(keys: &[SortKey], rows: &mut Vec<Keyed>) -> Result<(), NoMemory>
    ensures { OnOk result (spec.IsArrangement (by_key (map direction_of keys.now)) rows.old.items rows.new.items) }
{
    rows.sort_by(|a, b| compare_keys(keys, a.0.as_slice(), b.0.as_slice()))?;
    Ok(())
}

fn second_of(alloc: Global, rows: Vec<Keyed>) -> Result<Items<Items<Value>>, NoMemory>
    ensures { IfOk result (λ found. found ≡ map (λ (one : spec.Keyed). one.1) rows.items) }
{
    map_into(alloc, Items::from_vec(rows), |one| Ok(one.1))
}

/// Two rows by their keys: the first key in which they differ decides.
fn compare_keys(keys: &[SortKey], a: &[Value], b: &[Value]) -> Ordering
    ensures { result ≡ spec.key_cmp (map direction_of keys.now) a.now b.now }
{
    for (place, key) in keys.iter().enumerate() {
        let order = compare_directed(key, a.get(place), b.get(place));
        if order != Ordering::Equal {
            return order;
        }
    }
    Ordering::Equal
}

/// Two values in a direction: nulls first or last, and the others by value, or the other way round. A value that isn't there
/// counts as null.
fn compare_directed(key: &SortKey, a: Option<&Value>, b: Option<&Value>) -> Ordering
    ensures { result ≡ spec.directed_cmp (direction_of key.now) (or_null a.entry) (or_null b.entry) }
{
    let by_null = compare_nulls(key.nulls_first, is_missing(a), is_missing(b));
    if by_null != Ordering::Equal {
        return by_null;
    }
    match (a, b) {
        (Some(a), Some(b)) => compare_sizes(key.descending, a, b),
        _ => Ordering::Equal,
    }
}

fn is_missing(value: Option<&Value>) -> bool
    ensures { result ≡ is_null (or_null value.entry) }
{
    match value {
        Some(value) => eval_values::is_null(value),
        None => true,
    }
}

/// Nulls first or last.
fn compare_nulls(first: bool, a: bool, b: bool) -> Ordering
    ensures { result ≡ if first then bool_cmp b a else bool_cmp a b }
{
    if first { b.cmp(&a) } else { a.cmp(&b) }
}

/// By size, or the other way round.
fn compare_sizes(descending: bool, a: &Value, b: &Value) -> Ordering
    ensures { result ≡ spec.sized_cmp descending a.now b.now }
{
    if descending {
        compare(b, a)
    } else {
        compare(a, b)
    }
}
