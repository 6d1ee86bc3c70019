// Batches of the rows at places.
ghost use Rattle.std.specs.Prelude.{◌≡◌, ◌++◌, ◌∷◌, [], ◌<◌, ◌≤◌, Some, length, map, slice_get, slice_index_or, All, IfOk, OnOk};
ghost use Rattle.std.specs.List.{flat_map};
ghost use Rattle.sub_types.specs.Rows.{picked};
ghost use Rattle.sub_types.specs.declared.value.Value.TheVariants.{Null};
ghost use Rattle.batch.specs.BatchRows.{rows_of, types_of};
ghost use Rattle.batch.specs.Column.{column_values};
ghost use Rattle.batch_places.specs.BatchRow.{row_at};
ghost use Rattle.batch_places.specs.Places.{row_there, AreThere};

use crate::places::Place;
use batch::{Batch, Column, ColumnBuilder};
use std::alloc::Global;
use sub_types::NoMemory;

/// The most rows of a batch that is made of several.
const BATCH_ROWS: usize = 65_536;

/// The rows at places, in batches of up to 65,536 rows that are numbered 0. All batches have the types of the first. No places
/// give no batches.
pub fn batches_at(
    alloc: Global,
    first: &Batch,
    runs: &[Batch],
    places: &[Place],
) -> Result<Vec<Batch>, NoMemory>
    requires alike { All (λ run. types_of run ≡ types_of first.now) runs.now }
    requires there { AreThere runs.now places.now }
    ensures rows { IfOk result (λ batches. flat_map rows_of batches.items ≡ map (row_there runs.now) places.now) }
    ensures types { IfOk result (λ batches. All (λ batch. types_of batch ≡ types_of first.now) batches.items) }
    ensures few { IfOk result (λ batches. All (λ batch. batch.rows ≤ 65536) batches.items) }
    ensures number { IfOk result (λ batches. All (λ batch. batch.number ≡ 0) batches.items) }
{
    let mut batches = Vec::new(alloc);
    for part in places.chunks(BATCH_ROWS) {
        batches.push(batch_at(alloc, first, runs, part)?)?;
    }
    Ok(batches)
}

// The rows at places, as a batch.
fn batch_at(
    alloc: Global,
    first: &Batch,
    runs: &[Batch],
    places: &[Place],
) -> Result<Batch, NoMemory>
    requires alike { All (λ run. types_of run ≡ types_of first.now) runs.now }
    requires there { AreThere runs.now places.now }
    ensures rows { IfOk result (λ batch. rows_of batch ≡ map (row_there runs.now) places.now) }
    ensures types { IfOk result (λ batch. types_of batch ≡ types_of first.now) }
    ensures count { IfOk result (λ batch. batch.rows ≡ length places.now) }
    ensures number { IfOk result (λ batch. batch.number ≡ 0) }
{
    let mut columns = Vec::new(alloc);
    for index in 0..first.columns.len() {
        columns.push(column_at(alloc, first, runs, places, index)?)?;
    }
    Ok(Batch {
        number: 0,
        rows: places.len() as u64,
        columns,
    })
}

// The values of a column at places.
#[tactic(auto, using(crate::proofs::PlaceLaws::run_there))]
fn column_at(
    alloc: Global,
    first: &Batch,
    runs: &[Batch],
    places: &[Place],
    index: usize,
) -> Result<Column, NoMemory>
    requires alike { All (λ run. types_of run ≡ types_of first.now) runs.now }
    requires there { AreThere runs.now places.now }
    requires exists { index < length first.now.columns.items }
    ensures values { IfOk result (λ column. column_values column ≡ map (λ row. slice_index_or row index Null) (map (row_there runs.now) places.now)) }
    ensures ty { IfOk result (λ column. slice_get (types_of first.now) index ≡ Some column.ty) }
{
    let ty = first.columns[index].ty;
    let mut builder = ColumnBuilder::with_capacity(alloc, ty, places.len())?;
    for place in places {
        add_value(&mut builder, &runs[place.run], place.row, index)?;
    }
    Ok(builder.finish())
}

// Adds the value of a column at a row.
fn add_value(
    builder: &mut ColumnBuilder,
    run: &Batch,
    row: u64,
    index: usize,
) -> Result<(), NoMemory>
    requires alike { slice_get (types_of run.now) index ≡ Some builder.old.ty }
    requires within { row < run.now.rows }
    ensures values { OnOk result (builder.new.values ≡ builder.old.values ++ slice_index_or (row_at run.now row) index Null ∷ []) }
    ensures ty { builder.new.ty ≡ builder.old.ty }
{
    let column = &run.columns[index];
    // A batch has fewer than 2^64 rows.
    let _rows = run.rows;
    let from = row as usize;
    builder.append(column, from, from + 1)?;
    Ok(())
}

/// The rows of one batch at places, in batches of up to 65,536 rows that have its number. No places give no batches.
pub fn gather_in_parts(alloc: Global, whole: &Batch, places: &[u64]) -> Result<Vec<Batch>, NoMemory>
    requires { All (λ place. place < whole.now.rows) places.now }
    ensures rows { IfOk result (λ batches. flat_map rows_of batches.items ≡ picked [] places.now (rows_of whole.now)) }
    ensures types { IfOk result (λ batches. All (λ batch. types_of batch ≡ types_of whole.now) batches.items) }
    ensures few { IfOk result (λ batches. All (λ batch. batch.rows ≤ 65536) batches.items) }
    ensures number { IfOk result (λ batches. All (λ batch. batch.number ≡ whole.now.number) batches.items) }
{
    let mut batches = Vec::new(alloc);
    for part in places.chunks(BATCH_ROWS) {
        batches.push(whole.gather(alloc, part)?)?;
    }
    Ok(batches)
}
