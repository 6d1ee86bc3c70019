// Random sorts by both engines.
ghost use Rattle.std.specs.Prelude.{◌≡◌, ◌<◌, ◌∷◌, [], All, IfOk, OnOk};
ghost use Rattle.batch.specs.BatchRows.{types_of};

use crate::drawn::{BINARY, DrawnRow, NUMBER, are_rows, batch_of, draw_rows, row_list};
use crate::random::Random;
use batch::Batch;
use plan_leaves::Items;
use plan_typed::{Expr, SortKey};
use rel_specs::KeyOrder;
use row_sorts::sorted;
use row_steps::Stream;
use sort_merge::{interleave, sort_run};
use std::alloc::Global;
use sub_types::{NoMemory, Value};

/// Draws rows, keys and runs, and says whether both engines sort the rows alike.
pub(crate) fn sorts_alike(alloc: Global, random: &mut Random) -> Result<bool, NoMemory> {
    let count = random.below(40);
    let rows = draw_rows(alloc, random, count)?;
    let keys = draw_keys(alloc, random)?;
    let expected = expected_rows(alloc, &keys, &rows)?;
    let whole = sorted_whole(alloc, &keys, &rows)?;
    let merged = merged_runs(alloc, random, &keys, &rows)?;
    let alone = are_rows(alloc, &whole, expected.as_slice())?;
    let together = are_rows(alloc, &merged, expected.as_slice())?;
    Ok(alone && together)
}

// All rows in one batch, in order.
fn sorted_whole(alloc: Global, keys: &[KeyOrder], rows: &[DrawnRow]) -> Result<Vec<Batch>, NoMemory>
    requires { All (λ key. key.column < 2) keys.now }
{
    let sorted = sorted_run(alloc, keys, rows)?;
    let mut batches = Vec::new(alloc);
    batches.push(sorted)?;
    Ok(batches)
}

// The rows cut into runs, of which each is in order, and interleaved.
fn merged_runs(
    alloc: Global,
    random: &mut Random,
    keys: &[KeyOrder],
    rows: &[DrawnRow],
) -> Result<Vec<Batch>, NoMemory>
    requires { All (λ key. key.column < 2) keys.now }
{
    let runs = draw_runs(alloc, random, keys, rows)?;
    let merged = interleave(alloc, keys, runs)?;
    Ok(merged)
}

// Up to three keys, of the number and of the binary, in random directions.
fn draw_keys(alloc: Global, random: &mut Random) -> Result<Vec<KeyOrder>, NoMemory>
    ensures { IfOk result (λ keys. All (λ key. key.column < 2) keys.items) }
{
    let mut keys = Vec::new(alloc);
    for _ in 0..random.below(4) {
        keys.push(KeyOrder {
            column: random.below(2) as u32,
            descending: random.is_heads(),
            nulls_first: random.is_heads(),
        })?;
    }
    Ok(keys)
}

// What the row engine sorts.
fn expected_rows(
    alloc: Global,
    keys: &[KeyOrder],
    rows: &[DrawnRow],
) -> Result<Items<Items<Value>>, NoMemory> {
    let mut sort_keys = Vec::new(alloc);
    for key in keys {
        let ty = if key.column == 0 { NUMBER } else { BINARY };
        sort_keys.push(SortKey {
            expr: Expr::Column {
                index: key.column,
                ty,
            },
            descending: key.descending,
            nulls_first: key.nulls_first,
        })?;
    }
    let input = Stream {
        rows: row_list(alloc, rows)?,
        end: None,
    };
    Ok(sorted(alloc, 0, &sort_keys, input)?.rows)
}

// The rows cut into runs at random places, each in order.
fn draw_runs(
    alloc: Global,
    random: &mut Random,
    keys: &[KeyOrder],
    rows: &[DrawnRow],
) -> Result<Vec<Batch>, NoMemory>
    requires { All (λ key. key.column < 2) keys.now }
    ensures { IfOk result (λ runs. All (λ run. types_of run ≡ NUMBER ∷ BINARY ∷ []) runs.items) }
{
    let mut runs = Vec::new(alloc);
    let size = random.below(16) as usize + 1;
    for part in rows.chunks(size) {
        runs.push(sorted_run(alloc, keys, part)?)?;
    }
    Ok(runs)
}

// A run of rows in order.
fn sorted_run(alloc: Global, keys: &[KeyOrder], rows: &[DrawnRow]) -> Result<Batch, NoMemory>
    requires { All (λ key. key.column < 2) keys.now }
    ensures { IfOk result (λ run. types_of run ≡ NUMBER ∷ BINARY ∷ []) }
{
    let batch = batch_of(alloc, rows)?;
    let sorted = sort_run(alloc, keys, batch)?;
    Ok(sorted)
}
