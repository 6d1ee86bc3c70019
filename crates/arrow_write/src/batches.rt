// The record batches of a file, appended one after the other.
ghost use Rattle.std.specs.Prelude.{◌≡◌, ◌+◌, ◌≤◌, ◌^◌, OnOk, OnErr, IfOk, length, map, take, drop, vec_len};
ghost use Rattle.std.specs.List.{All, flat_map};
ghost use Rattle.world.specs.Counts.{HasCause};
ghost use Rattle.world.specs.Files.{appended, Has};
ghost use Rattle.batch.specs.BatchRows.{types_of, rows_of};
ghost use Rattle.arrow_meta.specs.File.{batches as cut, batch_message, blocks_from};
ghost use Rattle.arrow_meta.specs.Messages.{block_bytes};
ghost use Rattle.arrow_meta.specs.Meta.{place_of};
ghost use Rattle.arrow_write.specs.Cut.{IsInside, rows_in, rows_before};
ghost use Rattle.arrow_write.specs.Pieces.{IsPartAppended};
ghost use Rattle.arrow_write.specs.Progress.{Sends};

use crate::WriteError;
use crate::cursor::Cursor;
use crate::next::next_message;
use crate::put::append;
use arrow_meta::Block;
use batch::Batch;
use std::alloc::Global;
use sub_types::Ty;
use world::Folder;

/// The rows of one record batch of a file, but for the last.
const BATCH_ROWS: u64 = 1024;

// What was appended so far: the rows before the cursor.
#[derive(Drop)]
pub(crate) struct Progress {
    pub(crate) cursor: Cursor,
    // Where the next message begins in the file, of which the low 64 bits are kept.
    pub(crate) end: u64,
    // Where each message stands.
    pub(crate) blocks: Vec<Block>,
}

// Appends the messages of all rows to a file of `start` bytes, and gives where they stand.
pub(crate) fn append_batches<F: Folder>(
    alloc: Global,
    folder: &mut F,
    name: &str,
    types: &[Ty],
    batches: &[Batch],
    start: u64,
) -> Result<Vec<Block>, WriteError>
    requires has { Has (F.files folder.old) name.now }
    requires few { length types.now ≤ 1024 }
    requires alike { All (λ batch. types_of batch ≡ types.now) batches.now }
    requires few_rows { rows_in batches.now ≤ 2 ^ 36 }
    ensures ok { OnOk result (F.files folder.new ≡ appended (F.files folder.old) name.now (flat_map (batch_message types.now) (cut (flat_map rows_of batches.now)))) }
    ensures err { OnErr result (IsPartAppended (F.files folder.old) (F.files folder.new) name.now (flat_map (batch_message types.now) (cut (flat_map rows_of batches.now)))) }
    ensures blocks { IfOk result (λ blocks. flat_map block_bytes (map place_of blocks.items) ≡ flat_map block_bytes (blocks_from start types.now (cut (flat_map rows_of batches.now)))) }
    ensures few_blocks { IfOk result (λ blocks. vec_len blocks ≤ 2 ^ 26) }
    ensures cause { HasCause WriteError.WriteFault (F.write_faults folder.old) (F.write_faults folder.new) result }
    ensures reads { F.reads folder.new ≡ F.reads folder.old }
    ensures read_faults { F.read_faults folder.new ≡ F.read_faults folder.old }
    ensures lent { F.lent folder.new ≡ F.lent folder.old }
{
    let rows = row_count(batches);
    let count = ((rows + BATCH_ROWS - 1) / BATCH_ROWS).max(1);
    let mut progress = Progress {
        cursor: Cursor { batch: 0, row: 0 },
        end: start,
        blocks: Vec::new(alloc),
    };
    for k in 0..count {
        let size = BATCH_ROWS.min(rows - BATCH_ROWS * k);
        append_batch(alloc, folder, name, types, batches, &mut progress, size)?;
    }
    Ok(progress.blocks)
}

// Appends the message of the next `count` rows.
fn append_batch<F: Folder>(
    alloc: Global,
    folder: &mut F,
    name: &str,
    types: &[Ty],
    batches: &[Batch],
    progress: &mut Progress,
    count: u64,
) -> Result<(), WriteError>
    requires has { Has (F.files folder.old) name.now }
    requires few { length types.now ≤ 1024 }
    requires alike { All (λ batch. types_of batch ≡ types.now) batches.now }
    requires inside { IsInside batches.now progress.old.cursor }
    requires enough { rows_before batches.now progress.old.cursor + count ≤ rows_in batches.now }
    ensures ok { OnOk result (F.files folder.new ≡ appended (F.files folder.old) name.now (batch_message types.now (take count (drop (rows_before batches.now progress.old.cursor) (flat_map rows_of batches.now))))) }
    ensures err { OnErr result (IsPartAppended (F.files folder.old) (F.files folder.new) name.now (batch_message types.now (take count (drop (rows_before batches.now progress.old.cursor) (flat_map rows_of batches.now))))) }
    ensures moved { OnOk result (rows_before batches.now progress.new.cursor ≡ rows_before batches.now progress.old.cursor + count) }
    ensures inside { OnOk result (IsInside batches.now progress.new.cursor) }
    ensures sends { OnOk result (Sends types.now (take count (drop (rows_before batches.now progress.old.cursor) (flat_map rows_of batches.now))) progress.old progress.new) }
    ensures cause { HasCause WriteError.WriteFault (F.write_faults folder.old) (F.write_faults folder.new) result }
    ensures reads { F.reads folder.new ≡ F.reads folder.old }
    ensures read_faults { F.read_faults folder.new ≡ F.read_faults folder.old }
    ensures lent { F.lent folder.new ≡ F.lent folder.old }
{
    let message = next_message(alloc, types, batches, &mut progress.cursor, count)?;
    progress.blocks.push(Block {
        offset: progress.end.cast_signed(),
        meta_len: (message.meta_len + 8).cast_signed(),
        body_len: message.body_len.cast_signed(),
    })?;
    progress.end = progress.end.wrapping_add(message.bytes.len() as u64);
    append(alloc, folder, name, &message.bytes)
}

// How many rows the batches have.
fn row_count(batches: &[Batch]) -> u64
    requires { rows_in batches.now ≤ 2 ^ 36 }
    ensures { result ≡ rows_in batches.now }
{
    let mut rows = 0;
    for batch in batches {
        rows += batch.rows;
    }
    rows
}
