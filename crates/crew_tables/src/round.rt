// A round over the blocks of one table.
ghost use Rattle.std.specs.Prelude.{◌≡◌, ◌≤◌, List, map, sum_by, vec_len, IfOk, IfSome, OnOk};
ghost use Rattle.std.specs.List.{All, flat_map};
ghost use Rattle.sub_types.specs.declared.value.Value.{Value};
ghost use Rattle.sub_types.specs.Stream.{Stream, glue};
ghost use Rattle.batch.specs.BatchRows.{rows_of};
ghost use Rattle.world.specs.Counts.{HasCause};
ghost use Rattle.run_core.specs.Receipts.{lists_of, IsBalanced};
ghost use Rattle.block_source.specs.Bodies.{AreReadOnce};
ghost use Rattle.block_source.specs.Seen.{AreHeads};
ghost use Rattle.table_rows.specs.Blocks.{HaveKinds, HoldsTypes};
ghost use Rattle.plan_tables.specs.Read.{IsTableFault, batches_stream};
ghost use Rattle.crew_tables.specs.Blocks.{AreBlocks};

use batch::Batch;
use block_rows::{RowsWork, TableRows};
use block_source::run_blocks;
use crew_round::Round;
use round_end::{Settled, settle};
use run_core::Receipt;
use std::alloc::Global;
use std::marker::{Send, Sync};
use std::sync::Wait;
use std::thread::Threads;
use sub_types::Fault;
use world::{FolderError, Gate, Reader};

/// The batches of a table, the fault behind them, what each worker did, and the numbers that the caller worked.
#[derive(Drop)]
pub struct TableRound {
    pub batches: Vec<Batch>,
    pub end: Option<Fault>,
    pub receipts: Vec<Receipt>,
    pub left: Vec<u64>,
}

/// The rows of a table's blocks up to the first fault, a batch each, read and worked by so many workers, whatever their turns are. Each
/// block is claimed once, and read by the reader of its file, one for each. A failed read is an error only where no fault stands before
/// it.
pub fn run_table<H: Threads + Wait + Sync, R: Reader + Send, G: Gate>(
    rt: &H,
    alloc: Global,
    rows: &TableRows,
    readers: &mut Vec<R>,
    workers: u32,
    gate: &G,
) -> Result<TableRound, FolderError>
    requires workers { (1 ≤ workers) × (workers ≤ 64) }
    requires count { vec_len readers.old ≡ vec_len rows.now.table.now.files }
    requires heads { AreHeads rows.now.table.now.files.items (map R.bytes readers.old.items) }
    requires kinds { All (λ one. HaveKinds one.head.schema.columns one.wanted.items rows.now.types.now) rows.now.table.now.files.items }

    // Each block was claimed once, and finished by one worker or by the caller.
    ensures workers { IfOk result (λ r. vec_len r.receipts ≡ workers) }
    ensures balanced { IfOk result (λ r. IsBalanced (vec_len rows.now.table.now.places) (map lists_of r.receipts.items) r.left.items) }

    // The rows are those of all blocks in order, each tested, which are those of the files where their bytes are told.
    ensures rows { IfOk result (λ r. (input : List (Stream (List Value))) × AreBlocks rows.now (map R.bytes readers.old.items) rows.now.table.now.places.items input
        × (glue input ≡ batches_stream r.batches.items r.end)) }
    ensures typed { IfOk result (λ r. All (HoldsTypes rows.now.types.now) r.batches.items) }
    ensures fault { IfOk result (λ r. IfSome r.end (IsTableFault rows.now.relation)) }

    // Over all workers the body of each good block is read once.
    ensures reads { OnOk result (AreReadOnce rows.now.table.now.files.items (map R.reads readers.old.items) (map R.reads readers.new.items)) }
    ensures cause { HasCause FolderError.Failed (sum_by R.faults readers.old.items) (sum_by R.faults readers.new.items) result }
    ensures bytes { map R.bytes readers.new.items ≡ map R.bytes readers.old.items }
{
    let work = RowsWork { rows };
    let round = run_blocks(rt, alloc, rows.table, readers, work, workers, gate)?;
    let Round {
        receipts,
        left,
        outs,
    } = round;
    match settle(alloc, outs) {
        Ok(settled) => {
            let Settled { made, end } = settled;
            Ok(TableRound {
                batches: made,
                end,
                receipts,
                left,
            })
        }
        Err(error) => Err(error),
    }
}
