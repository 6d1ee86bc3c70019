// Rows that are in order of their prefixes, put in order of their keys.
ghost use Rattle.std.specs.Prelude.{◌≡◌, ◌≢◌, ◌<◌, ◌≤◌, ◌-◌, ◌++◌, length, take, drop, slice_index_or, All, OnOk};
ghost use Rattle.std.specs.List.{slice_range};
ghost use Rattle.std.specs.List.Sorted.{IsNonDecreasingBy};
ghost use Rattle.plan_denote.specs.Sort.{IsArrangement, arranged};
ghost use Rattle.batch_places.specs.BatchRow.{has_row, row_at};
ghost use Rattle.sort_merge.specs.Prefix as spec;

use crate::order::compare_rows;
use crate::prefixes::prefix_of;
use batch::Batch;
use rel_specs::KeyOrder;
use std::alloc::Global;
use sub_types::NoMemory;

/// Puts rows whose prefixes don't fall in order of their keys: those that have one prefix stand beside one another, and each such
/// stretch is put in order by itself.
pub(crate) fn order_ties(
    alloc: Global,
    keys: &[KeyOrder],
    batch: &Batch,
    rows: &mut [u64],
) -> Result<(), NoMemory>
    requires columns { All (λ key. key.column < length batch.now.columns.items) keys.now }
    requires rising { IsNonDecreasingBy spec.prefix_of rows.old }
    ensures arrangement { OnOk result (IsArrangement (spec.prefixed_cmp keys.now (has_row batch.now) (row_at batch.now)) rows.old rows.new) }
    ensures count { OnOk result (length rows.new ≡ length rows.old) }
{
    let mut from = 0;
    while from < rows.len() {
        let to = end_of_stretch(rows, from);
        order_stretch(alloc, keys, batch, rows, from, to)?;
        from = to;
    }
    Ok(())
}

// Where the stretch of rows with one prefix ends that begins here.
fn end_of_stretch(rows: &[u64], from: usize) -> usize
    requires { from < length rows.now }
    ensures longer { from < result }
    ensures within { result ≤ length rows.now }
    ensures apart { result < length rows.now → spec.prefix_of (slice_index_or rows.now (result - 1) 0) ≢ spec.prefix_of (slice_index_or rows.now result 0) }
{
    for to in from + 1..rows.len() {
        if prefix_of(rows[to - 1]) != prefix_of(rows[to]) {
            return to;
        }
    }
    rows.len()
}

// Puts the rows from `from` to before `to` in order.
fn order_stretch(
    alloc: Global,
    keys: &[KeyOrder],
    batch: &Batch,
    rows: &mut [u64],
    from: usize,
    to: usize,
) -> Result<(), NoMemory>
    requires columns { All (λ key. key.column < length batch.now.columns.items) keys.now }
    requires longer { from < to }
    requires within { to ≤ length rows.old }
    ensures rows { OnOk result (rows.new ≡ take from rows.old ++ (arranged (spec.prefixed_cmp keys.now (has_row batch.now) (row_at batch.now)) (slice_range rows.old from to) ++ drop to rows.old)) }
    ensures count { length rows.new ≡ length rows.old }
{
    if to - from == 1 {
        return Ok(());
    }
    rows[from..to].sort_by(alloc, |a, b| compare_rows(keys, batch, *a, *b))?;
    Ok(())
}
