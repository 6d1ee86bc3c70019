// A round over the blocks of a table's files.
ghost use Rattle.std.specs.Prelude.{◌≡◌, ◌≤◌, All, List, map, sum_by, vec_len, IfOk, OnOk};
ghost use Rattle.sub_types.specs.Stream.{Stream, glue};
ghost use Rattle.world.specs.Counts.{HasCause};
ghost use Rattle.run_core.specs.Receipts.{lists_of, IsBalanced};
ghost use Rattle.plan_denote.specs.Rows.{Row};
ghost use Rattle.plan_pipes.specs.Run.{through};
ghost use Rattle.plan_pipes.specs.RowMeaning.{row_steps};
ghost use Rattle.pipe_types.specs.Exact.{exact_steps};
ghost use Rattle.pipe_steps.specs.Tables.{joins_of, tables_seen};
ghost use Rattle.pipe_round.specs.Below.{ArePartsOf};
ghost use Rattle.block_source.specs.Bodies.{AreReadOnce};
ghost use Rattle.block_source.specs.Seen.{AreHeads};
ghost use Rattle.table_rows.specs.Blocks.{HaveKinds};
ghost use Rattle.table_round.specs.Streams.{AreBlocks};

use block_source::run_blocks;
use block_work::{BlockWork, TableSteps};
use crew_round::Round;
use pipe_round::{PipeRound, settle_pieces};
use std::alloc::Global;
use std::marker::{Send, Sync};
use std::sync::Wait;
use std::thread::Threads;
use world::{FolderError, Gate, Reader};

/// What is kept for the pipeline's breaker of what the steps give over all blocks of the table, up to the first fault, read and worked by
/// so many workers, whatever their turns are. Each block is claimed once, and read by the reader of its file, one for each. A failed read
/// is an error only where no fault stands before it.
pub fn run_table<H: Threads + Wait + Sync, R: Reader + Send, G: Gate>(
    rt: &H,
    alloc: Global,
    steps: &TableSteps,
    readers: &mut Vec<R>,
    workers: u32,
    gate: &G,
) -> Result<PipeRound, FolderError>
    requires workers { (1 ≤ workers) × (workers ≤ 64) }
    requires count { vec_len readers.old ≡ vec_len steps.now.table.now.files }
    requires heads { AreHeads steps.now.table.now.files.items (map R.bytes readers.old.items) }
    requires kinds { All (λ one. HaveKinds one.head.schema.columns one.wanted.items steps.now.pipe.now.types) steps.now.table.now.files.items }

    // Each block was claimed once, and finished by one worker or by the caller.
    ensures workers { IfOk result (λ r. vec_len r.receipts ≡ workers) }
    ensures balanced { IfOk result (λ r. IsBalanced (vec_len steps.now.table.now.places) (map lists_of r.receipts.items) r.left.items) }

    // The parts are of what the steps give over all blocks, which are those of the files where their bytes are told.
    ensures parts { IfOk result (λ r. (input : List (Stream Row)) × AreBlocks steps.now (map R.bytes readers.old.items) steps.now.table.now.places.items input
        × ArePartsOf steps.now.pipe.now.breaker (through exact_steps (joins_of steps.now.pipe.now.tables) steps.now.pipe.now.steps steps.now.pipe.now.types)
        (through row_steps (tables_seen steps.now.pipe.now.tables) steps.now.pipe.now.steps (glue input)) r.parts.items) }

    // Over all workers the body of each good block is read once.
    ensures reads { OnOk result (AreReadOnce steps.now.table.now.files.items (map R.reads readers.old.items) (map R.reads readers.new.items)) }
    ensures cause { HasCause FolderError.Failed (sum_by R.faults readers.old.items) (sum_by R.faults readers.new.items) result }
    ensures bytes { map R.bytes readers.new.items ≡ map R.bytes readers.old.items }
{
    let round = run_blocks(
        rt,
        alloc,
        steps.table,
        readers,
        BlockWork { steps },
        workers,
        gate,
    )?;
    let Round {
        receipts,
        left,
        outs,
    } = round;
    match settle_pieces(alloc, steps.pipe, outs) {
        Ok(parts) => Ok(PipeRound {
            parts,
            receipts,
            left,
        }),
        Err(error) => Err(error),
    }
}
