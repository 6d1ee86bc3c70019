// The rows of the blocks of a table, counted by many workers.
ghost use Rattle.std.specs.Prelude.{◌≡◌, ◌≤◌, Some, map, sum_by, vec_len, OnOk};
ghost use Rattle.world.specs.Counts.{HasCause};
ghost use Rattle.block_source.specs.Bodies.{AreReadOnce};
ghost use Rattle.block_source.specs.Seen.{AreHeads};

use crate::counting::RowCount;
use block_source::{TableBlocks, run_blocks};
use round_end::{Settled, settle};
use std::alloc::Global;
use std::sync::Wait;
use std::thread::Threads;
use world::{FolderError, Gate, MemReader};

/// The rows of each block in order, up to the first bad one. A failed read is an error where no bad block stands
/// before it.
pub fn count_rows<H: Threads + Wait + Sync, G: Gate>(
    rt: &H,
    alloc: Global,
    table: &TableBlocks,
    readers: &mut Vec<MemReader>,
    workers: u32,
    gate: &G,
) -> Result<Settled<u64>, FolderError>
    requires workers { (1 ≤ workers) × (workers ≤ 64) }
    requires count { vec_len readers.old ≡ vec_len table.now.files }
    requires heads { AreHeads table.now.files.items (map (λ reader. Some reader.bytes) readers.old.items) }
    ensures reads { OnOk result (AreReadOnce table.now.files.items (map (λ reader. Some reader.reads) readers.old.items) (map (λ reader. Some reader.reads) readers.new.items)) }
    ensures cause { HasCause FolderError.Failed (sum_by (λ reader. reader.faults) readers.old.items) (sum_by (λ reader. reader.faults) readers.new.items) result }
{
    let round = run_blocks(rt, alloc, table, readers, RowCount, workers, gate)?;
    settle(alloc, round.outs)
}
