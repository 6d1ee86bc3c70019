// The rows of several runs in order.
ghost use Rattle.std.specs.Prelude.{◌≡◌, ◌<◌, ◌≤◌, length, All, IfOk, OnOk};
ghost use Rattle.std.specs.List.{flat_map};
ghost use Rattle.sub_types.specs.Kind.{IsKind};
ghost use Rattle.sub_types.specs.Stream.{rows_alone};
ghost use Rattle.plan_denote.specs.Sort.{IsArrangement};
ghost use Rattle.plan_pipes.specs.RowMeaning.{sorted_by};
ghost use Rattle.batch.specs.BatchRows.{rows_of, types_of};
ghost use Rattle.batch_places.specs.Places.{is_there, row_there, first_types};
ghost use Rattle.sort_merge.specs.RowOrder.{place_cmp};

use crate::order::ordered_places;
use batch::{Batch, join_batches};
use batch_places::{Place, all_places, are_few, batches_at, gather_in_parts, is_row};
use rel_specs::KeyOrder;
use row_keys::compare_keys;
use std::alloc::Global;
use std::cmp::Ordering;
use sub_types::{NoMemory, Ty};

/// The rows of all runs in order of these columns, in batches of up to 65,536 rows that are numbered 0. Rows with equal keys
/// stand in the order of their runs, and those of one run in its order. Runs that are in order are merged: n rows of k runs take
/// n log k comparisons. No rows give no batches.
pub fn interleave(
    alloc: Global,
    keys: &[KeyOrder],
    runs: Vec<Batch>,
) -> Result<Vec<Batch>, NoMemory>
    requires columns { All (λ run. All (λ key. key.column < length run.columns.items) keys.now) runs.items }
    requires alike { All (λ run. types_of run ≡ first_types runs.items) runs.items }
    ensures rows { IfOk result (λ batches. rows_alone (flat_map rows_of batches.items) ≡ sorted_by keys.now (rows_alone (flat_map rows_of runs.items))) }
    ensures types { IfOk result (λ batches. All (λ batch. types_of batch ≡ first_types runs.items) batches.items) }
    ensures few { IfOk result (λ batches. All (λ batch. batch.rows ≤ 65536) batches.items) }
    ensures number { IfOk result (λ batches. All (λ batch. batch.number ≡ 0) batches.items) }
{
    let Some(first) = runs.first() else {
        return Ok(Vec::new(alloc));
    };
    if !are_few(&runs) {
        return interleave_places(alloc, keys, first, &runs);
    }
    let types = types_in(alloc, first)?;
    let whole = join_batches(alloc, &types, &runs)?;
    drop(runs);
    batches_in_order(alloc, keys, &whole)
}

// The types of a batch's columns.
fn types_in(alloc: Global, batch: &Batch) -> Result<Vec<Ty>, NoMemory>
    ensures types { IfOk result (λ types. types.items ≡ types_of batch.now) }
    ensures kinds { IfOk result (λ types. All (λ ty. IsKind ty.kind) types.items) }
{
    let mut types = Vec::with_capacity(alloc, batch.columns.len())?;
    for column in &batch.columns {
        types.push(column.ty)?;
    }
    Ok(types)
}

// The rows of a batch in order, in batches of up to 65,536 rows.
fn batches_in_order(alloc: Global, keys: &[KeyOrder], whole: &Batch) -> Result<Vec<Batch>, NoMemory>
    requires columns { All (λ key. key.column < length whole.now.columns.items) keys.now }
    ensures rows { IfOk result (λ batches. rows_alone (flat_map rows_of batches.items) ≡ sorted_by keys.now (rows_alone (rows_of whole.now))) }
    ensures types { IfOk result (λ batches. All (λ batch. types_of batch ≡ types_of whole.now) batches.items) }
    ensures few { IfOk result (λ batches. All (λ batch. batch.rows ≤ 65536) batches.items) }
    ensures number { IfOk result (λ batches. All (λ batch. batch.number ≡ whole.now.number) batches.items) }
{
    let places = ordered_places(alloc, keys, whole)?;
    gather_in_parts(alloc, whole, &places)
}

// The rows of runs in order, where they are too many for one batch.
fn interleave_places(
    alloc: Global,
    keys: &[KeyOrder],
    first: &Batch,
    runs: &[Batch],
) -> Result<Vec<Batch>, NoMemory>
    requires columns { All (λ run. All (λ key. key.column < length run.columns.items) keys.now) runs.now }
    requires alike { All (λ run. types_of run ≡ types_of first.now) runs.now }
    requires first { first_types runs.now ≡ types_of first.now }
    ensures rows { IfOk result (λ batches. rows_alone (flat_map rows_of batches.items) ≡ sorted_by keys.now (rows_alone (flat_map rows_of runs.now))) }
    ensures types { IfOk result (λ batches. All (λ batch. types_of batch ≡ types_of first.now) batches.items) }
    ensures few { IfOk result (λ batches. All (λ batch. batch.rows ≤ 65536) batches.items) }
    ensures number { IfOk result (λ batches. All (λ batch. batch.number ≡ 0) batches.items) }
{
    let mut places = all_places(alloc, runs)?;
    put_in_order(keys, runs, &mut places)?;
    batches_at(alloc, first, runs, &places)
}

// Puts places in order of the rows there.
fn put_in_order(keys: &[KeyOrder], runs: &[Batch], places: &mut Vec<Place>) -> Result<(), NoMemory>
    requires columns { All (λ run. All (λ key. key.column < length run.columns.items) keys.now) runs.now }
    requires alike { All (λ run. types_of run ≡ first_types runs.now) runs.now }
    ensures { OnOk result (IsArrangement (place_cmp keys.now (is_there runs.now) (row_there runs.now)) places.old.items places.new.items) }
{
    places.sort_by(|a, b| compare_places(keys, runs, a, b))?;
    Ok(())
}

// Two places by the rows there.
fn compare_places(keys: &[KeyOrder], runs: &[Batch], a: &Place, b: &Place) -> Ordering
    requires columns { All (λ run. All (λ key. key.column < length run.columns.items) keys.now) runs.now }
    requires alike { All (λ run. types_of run ≡ first_types runs.now) runs.now }
    ensures { result ≡ place_cmp keys.now (is_there runs.now) (row_there runs.now) a.now b.now }
{
    let first = is_row(runs, a);
    let second = is_row(runs, b);
    if first && second {
        return compare_keys(&runs[a.run], a.row, &runs[b.run], b.row, keys);
    }
    first.cmp(&second)
}
