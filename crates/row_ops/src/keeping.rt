// The columns of rows in another order.
ghost use Rattle.std.specs.Prelude.{◌≡◌, ◌∷◌, [], ◌++◌, ◌<◌, All, IfOk, OnOk, length, map, slice_index_or};
ghost use Rattle.plan_denote.specs.Project.{emitted};
ghost use Rattle.well_typed.specs.Columns.{columns_at};
ghost use Rattle.batch.specs.BatchRows.{stream_of_piece, types_of};
ghost use Rattle.row_ops.specs.Kept.{nothing, shown, shown_slot, IsWithin};

use batch::{Batch, Column, Piece};
use std::alloc::Global;
use std::mem;
use sub_types::NoMemory;

/// These columns of each row, in this order; the end stays. A column is moved where it is taken first, and copied where it is taken
/// again.
pub fn keep(alloc: Global, columns: &[u32], input: Piece) -> Result<Piece, NoMemory>
    requires exist { All (λ column. column < length input.batch.columns.items) columns.now }
    ensures stream { IfOk result (λ kept. stream_of_piece kept ≡ emitted columns.now (stream_of_piece input)) }
    ensures types { IfOk result (λ kept. types_of kept.batch ≡ columns_at (types_of input.batch) columns.now) }
    ensures number { IfOk result (λ kept. kept.batch.number ≡ input.batch.number) }
    ensures count { IfOk result (λ kept. kept.batch.rows ≡ input.batch.rows) }
{
    let Piece { batch, end } = input;
    let Batch {
        number,
        rows,
        columns: given,
        ..
    } = batch;
    let columns = taken(alloc, columns, given)?;
    Ok(Piece {
        batch: Batch {
            number,
            rows,
            columns,
        },
        end,
    })
}

// The columns at these places.
fn taken(alloc: Global, places: &[u32], columns: Vec<Column>) -> Result<Vec<Column>, NoMemory>
    requires exist { All (λ place. place < length columns.items) places.now }
    ensures { IfOk result (λ kept. map shown kept.items ≡ map (λ place. slice_index_or (map shown columns.items) place nothing) places.now) }
{
    let mut slots = in_slots(alloc, columns)?;
    let mut kept = Vec::with_capacity(alloc, places.len())?;
    for place in places {
        take(alloc, &mut slots, &mut kept, *place as usize)?;
    }
    Ok(kept)
}

/// A column that wasn't taken so far, or where among those that were taken it stands.
#[derive(Drop)]
pub enum Slot {
    Here(Column),
    Taken(usize),
}

// All columns, none of them taken.
fn in_slots(alloc: Global, columns: Vec<Column>) -> Result<Vec<Slot>, NoMemory>
    ensures shown { IfOk result (λ slots. map (shown_slot []) slots.items ≡ map shown columns.items) }
    ensures within { IfOk result (λ slots. All (IsWithin 0) slots.items) }
{
    let mut slots = Vec::with_capacity(alloc, columns.len())?;
    for column in columns {
        slots.push(Slot::Here(column))?;
    }
    Ok(slots)
}

// Takes the column at a place.
fn take(
    alloc: Global,
    slots: &mut Vec<Slot>,
    kept: &mut Vec<Column>,
    place: usize,
) -> Result<(), NoMemory>
    requires exists { place < length slots.old.items }
    requires within { All (IsWithin (length kept.old.items)) slots.old.items }
    ensures taken { OnOk result (map shown kept.new.items ≡ map shown kept.old.items ++ slice_index_or (map (shown_slot kept.old.items) slots.old.items) place nothing ∷ []) }
    ensures stay { OnOk result (map (shown_slot kept.new.items) slots.new.items ≡ map (shown_slot kept.old.items) slots.old.items) }
    ensures within { OnOk result (All (IsWithin (length kept.new.items)) slots.new.items) }
{
    let slot = mem::replace(&mut slots[place], Slot::Taken(kept.len()));
    let column = match slot {
        Slot::Here(column) => column,
        Slot::Taken(first) => copy_of(alloc, &kept[first])?,
    };
    kept.push(column)?;
    Ok(())
}

fn copy_of(alloc: Global, column: &Column) -> Result<Column, NoMemory>
    ensures { IfOk result (λ copy. shown copy ≡ shown column.now) }
{
    column.part(alloc, 0, column.values.len())
}
