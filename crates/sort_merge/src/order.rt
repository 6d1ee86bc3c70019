// The places of a batch's rows in order.
ghost use Rattle.std.specs.Prelude.{◌≡◌, ◌<◌, ◌≤◌, ◌^◌, length, map, All, IfOk};
ghost use Rattle.std.specs.List.{range_with_len};
ghost use Rattle.plan_denote.specs.Sort.{IsArrangement};
ghost use Rattle.batch_places.specs.BatchRow.{has_row, row_at};
ghost use Rattle.sort_merge.specs.Prefix as spec;
ghost use Rattle.sort_merge.specs.RowOrder.{place_cmp};

use crate::prefixes::{prefix_of, prefixed_rows, row_of};
use crate::scale::{Scale, scale_of};
use crate::ties::order_ties;
use batch::Batch;
use rel_specs::KeyOrder;
use row_keys::compare_keys;
use std::alloc::Global;
use std::cmp::Ordering;
use sub_types::NoMemory;

/// The most rows whose places are numbers of 32 bits.
const MANY_ROWS: u64 = 1 << 32;

/// The places of a batch's rows in order of these columns.
pub(crate) fn ordered_places(
    alloc: Global,
    keys: &[KeyOrder],
    batch: &Batch,
) -> Result<Vec<u64>, NoMemory>
    requires columns { All (λ key. key.column < length batch.now.columns.items) keys.now }
    ensures arrangement { IfOk result (λ places. IsArrangement (place_cmp keys.now (has_row batch.now) (row_at batch.now)) (range_with_len 0 batch.now.rows) places.items) }
    ensures count { IfOk result (λ places. length places.items ≡ batch.now.rows) }
{
    if batch.rows > MANY_ROWS {
        return places_in_order(alloc, keys, batch);
    }
    let scale = scale_of(keys, batch);
    let mut rows = rows_in_order(alloc, keys, batch, &scale)?;
    keep_places(&mut rows);
    Ok(rows)
}

// Leaves of rows only their places.
#[tactic(auto, using(crate::proofs::TieLaws::place_kept, crate::proofs::TieLaws::places_kept))]
fn keep_places(rows: &mut Vec<u64>)
    ensures { rows.new.items ≡ map spec.row_of rows.old.items }
{
    for i in 0..rows.len() {
        rows[i] = row_of(rows[i]);
    }
}

// All rows in order: first by their numbers, which compare fast, and then those of one prefix by their keys.
fn rows_in_order(
    alloc: Global,
    keys: &[KeyOrder],
    batch: &Batch,
    scale: &Scale,
) -> Result<Vec<u64>, NoMemory>
    requires columns { All (λ key. key.column < length batch.now.columns.items) keys.now }
    requires few { batch.now.rows ≤ 2 ^ 32 }
    ensures arrangement { IfOk result (λ rows. IsArrangement (spec.prefixed_cmp keys.now (has_row batch.now) (row_at batch.now)) (map (spec.prefixed_at scale.now keys.now batch.now) (range_with_len 0 batch.now.rows)) rows.items) }
    ensures count { IfOk result (λ rows. length rows.items ≡ batch.now.rows) }
{
    let mut rows = prefixed_rows(alloc, keys, batch, scale)?;
    rows.sort()?;
    order_ties(alloc, keys, batch, &mut rows)?;
    Ok(rows)
}

// The places of all rows in order by the rows alone, where they are many.
fn places_in_order(alloc: Global, keys: &[KeyOrder], batch: &Batch) -> Result<Vec<u64>, NoMemory>
    requires columns { All (λ key. key.column < length batch.now.columns.items) keys.now }
    ensures arrangement { IfOk result (λ places. IsArrangement (place_cmp keys.now (has_row batch.now) (row_at batch.now)) (range_with_len 0 batch.now.rows) places.items) }
    ensures count { IfOk result (λ places. length places.items ≡ batch.now.rows) }
{
    // A batch has fewer than 2^64 rows.
    let _rows = batch.rows;
    let mut places = all_rows(alloc, batch.rows)?;
    places.sort_by(|a, b| compare_places(keys, batch, *a, *b))?;
    Ok(places)
}

// The places of so many rows.
fn all_rows(alloc: Global, rows: u64) -> Result<Vec<u64>, NoMemory>
    ensures { IfOk result (λ places. places.items ≡ range_with_len 0 rows) }
{
    let mut places = Vec::with_capacity(alloc, rows as usize)?;
    for row in 0..rows {
        places.push(row)?;
    }
    Ok(places)
}

/// Two rows by their prefixes, and where these are equal by their keys.
pub(crate) fn compare_rows(keys: &[KeyOrder], batch: &Batch, a: u64, b: u64) -> Ordering
    requires columns { All (λ key. key.column < length batch.now.columns.items) keys.now }
    ensures { result ≡ spec.prefixed_cmp keys.now (has_row batch.now) (row_at batch.now) a b }
{
    let by_prefix = prefix_of(a).cmp(&prefix_of(b));
    if by_prefix != Ordering::Equal {
        return by_prefix;
    }
    compare_places(keys, batch, row_of(a), row_of(b))
}

// Two places by the rows there.
fn compare_places(keys: &[KeyOrder], batch: &Batch, a: u64, b: u64) -> Ordering
    requires columns { All (λ key. key.column < length batch.now.columns.items) keys.now }
    ensures { result ≡ place_cmp keys.now (has_row batch.now) (row_at batch.now) a b }
{
    let first = a < batch.rows;
    let second = b < batch.rows;
    if first && second {
        return compare_keys(batch, a, batch, b, keys);
    }
    first.cmp(&second)
}
