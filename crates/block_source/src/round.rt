// The blocks of a table, each read and worked once by one of many workers.
ghost use Rattle.std.specs.Prelude.{◌≡◌, ◌≤◌, ℕ, All, map, sum_by, vec_len, IfOk, OnOk};
ghost use Rattle.std.specs.List.{range_with_len};
ghost use Rattle.world.specs.Counts.{HasCause};
ghost use Rattle.run_core.specs.Receipts.{lists_of, IsBalanced};
ghost use Rattle.block_source.specs.Bodies.{AreReadOnce};
ghost use Rattle.block_source.specs.Made.{IsMadeOf};
ghost use Rattle.block_source.specs.Seen.{AreHeads};

use crate::absorb::absorb_labours;
use crate::again::labours_again;
use crate::block::BlockRead;
use crate::table::TableBlocks;
use crew_round::{Round, run_round};
use pipe_labour::{Item, Work};
use std::alloc::Global;
use std::marker::{Send, Sync};
use std::sync::Wait;
use std::thread::Threads;
use world::{FolderError, Gate, Reader};

/// Reads and works each block of the table once, by so many workers, whatever their turns are. The readers, one for
/// each file, lend each worker a reader of its own before the workers start, and absorb it once they have ended, also
/// without memory. A failed read is part of what is worked; it is an error only where a worker's reader can't be made.
pub fn run_blocks<
    H: Threads + Wait + Sync,
    R: Reader + Send,
    W: Work<BlockRead> + Copy + Send + Drop,
    G: Gate,
>(
    rt: &H,
    alloc: Global,
    table: &TableBlocks,
    readers: &mut Vec<R>,
    work: W,
    workers: u32,
    gate: &G,
) -> Result<Round<Item<W::Made>>, FolderError>
    requires workers { (1 ≤ workers) × (workers ≤ 64) }
    requires count { vec_len readers.old ≡ vec_len table.now.files }
    requires heads { AreHeads table.now.files.items (map R.bytes readers.old.items) }

    // Each number was claimed and loaded once, and finished by one worker or by the caller.
    ensures workers { IfOk result (λ r. vec_len r.receipts ≡ workers) }
    ensures balanced { IfOk result (λ r. IsBalanced (vec_len table.now.places) (map lists_of r.receipts.items) r.left.items) }

    // The outcomes are those of 0, 1, .. in this order, each made of what reading gave for its number.
    ensures numbers { IfOk result (λ r. map (λ out. out.number) r.outs.items ≡ range_with_len 0 (vec_len table.now.places)) }
    ensures made { IfOk result (λ r. All (λ out. IsMadeOf (W.makes (W.sense work)) table.now.files.items (map R.bytes readers.old.items)
        (sum_by R.faults readers.old.items) (sum_by R.faults readers.new.items) out.number out.value) r.outs.items) }

    // Over all workers the body of each good block is read once.
    ensures reads { OnOk result (AreReadOnce table.now.files.items (map R.reads readers.old.items) (map R.reads readers.new.items)) }
    ensures cause { HasCause FolderError.Failed (sum_by R.faults readers.old.items) (sum_by R.faults readers.new.items) result }
    ensures bytes { map R.bytes readers.new.items ≡ map R.bytes readers.old.items }
{
    let mut labours = labours_again(alloc, table, readers, work, workers)?;
    let round = run_round(rt, alloc, table.places.len() as u64, &mut labours, gate);
    absorb_labours(alloc, table, readers, labours)?;
    let round = round?;
    Ok(round)
}
