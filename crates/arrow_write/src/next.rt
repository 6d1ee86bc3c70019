// The messages of the output batches, one after the other.
ghost use Rattle.std.specs.Prelude.{◌≡◌, ◌+◌, ◌≤◌, IfOk, OnOk, IfSome, take, drop, length};
ghost use Rattle.std.specs.List.{All, flat_map};
ghost use Rattle.batch.specs.BatchRows.{types_of, rows_of};
ghost use Rattle.arrow_write.specs.Cut.{IsInside, IsPartOf, IsWhole, rows_in, rows_before};
ghost use Rattle.arrow_write.specs.Progress.{IsMessage};

use crate::cursor::{Cursor, Part};
use crate::cut::batch_of_parts;
use crate::message::{Message, batch_message, empty_message};
use batch::Batch;
use std::alloc::Global;
use sub_types::{NoMemory, Ty};

// The message of the next `count` rows. The cursor stands behind them afterwards.
pub(crate) fn next_message(
    alloc: Global,
    types: &[Ty],
    batches: &[Batch],
    cursor: &mut Cursor,
    count: u64,
) -> Result<Message, NoMemory>
    requires few { length types.now ≤ 1024 }
    requires alike { All (λ batch. types_of batch ≡ types.now) batches.now }
    requires inside { IsInside batches.now cursor.old }
    requires enough { rows_before batches.now cursor.old + count ≤ rows_in batches.now }
    ensures message { IfOk result (IsMessage types.now (take count (drop (rows_before batches.now cursor.old) (flat_map rows_of batches.now)))) }
    ensures moved { OnOk result (rows_before batches.now cursor.new ≡ rows_before batches.now cursor.old + count) }
    ensures inside { OnOk result (IsInside batches.now cursor.new) }
{
    if count == 0 {
        return empty_message(alloc, types);
    }
    let parts = cursor.next_parts(alloc, batches, count)?;
    if let Some(i) = whole_batch(batches, &parts) {
        return batch_message(alloc, &batches[i]);
    }
    let batch = batch_of_parts(alloc, types, batches, &parts, count)?;
    batch_message(alloc, &batch)
}

// The place of the batch that the parts are, whole and alone: it need not be copied.
fn whole_batch(batches: &[Batch], parts: &[Part]) -> Option<usize>
    requires { All (IsPartOf batches.now) parts.now }
    ensures { IfSome result (IsWhole batches.now parts.now) }
{
    if parts.len() != 1 {
        return None;
    }
    let part = parts[0];
    if part.from != 0 || part.to != batches[part.batch].rows {
        return None;
    }
    Some(part.batch)
}
