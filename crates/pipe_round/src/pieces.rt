// A round over pieces in memory.
ghost use Rattle.std.specs.Prelude.{◌≡◌, ◌≤◌, ◌^◌, All, length, map, vec_len, IfOk};
ghost use Rattle.std.specs.List.{range_with_len};
ghost use Rattle.sub_types.specs.Stream.{glue};
ghost use Rattle.run_core.specs.Receipts.{lists_of, IsBalanced};
ghost use Rattle.batch.specs.BatchRows.{stream_of_piece};
ghost use Rattle.plan_pipes.specs.Run.{through};
ghost use Rattle.plan_pipes.specs.RowMeaning.{row_steps};
ghost use Rattle.pipe_types.specs.Exact.{exact_steps};
ghost use Rattle.pipe_steps.specs.Tables.{joins_of, tables_seen};
ghost use Rattle.pipe_work.specs.Kept.{ArePartsOf};
ghost use Rattle.pipe_round.specs.Worked.{IsMadeAt};

use crate::labours::labours_over;
use crate::round::PipeRound;
use crate::together::settle_pieces;
use crew_round::{Round, run_round};
use pipe_labour::Item;
use pipe_work::{HeldPiece, Kept, PipeSteps};
use round_end::Outcome;
use std::alloc::Global;
use std::sync::Wait;
use std::thread::Threads;
use sub_types::NoMemory;
use world::Gate;

/// What is kept for the pipeline's breaker of what the steps give over all pieces, up to the first fault, worked by so many workers,
/// whatever their turns are. Each piece is claimed once.
pub fn run_pieces<H: Threads + Wait + Sync, G: Gate>(
    rt: &H,
    alloc: Global,
    pipe: &PipeSteps,
    pieces: &[HeldPiece],
    workers: u32,
    gate: &G,
) -> Result<PipeRound, NoMemory>
    requires count { length pieces.now ≤ 2 ^ 62 }
    requires workers { (1 ≤ workers) × (workers ≤ 64) }
    requires of_pipe { All (λ held. held.pipe.now ≡ pipe.now) pieces.now }

    // Each piece was claimed once, and finished by one worker or by the caller.
    ensures workers { IfOk result (λ r. vec_len r.receipts ≡ workers) }
    ensures balanced { IfOk result (λ r. IsBalanced (length pieces.now) (map lists_of r.receipts.items) r.left.items) }

    // The parts are of what the steps give over the whole input.
    ensures parts { IfOk result (λ r. ArePartsOf pipe.now.breaker (through exact_steps (joins_of pipe.now.tables) pipe.now.steps pipe.now.types)
        (through row_steps (tables_seen pipe.now.tables) pipe.now.steps (glue (map (λ held. stream_of_piece held.piece) pieces.now))) r.parts.items) }
{
    let round = work_pieces(rt, alloc, pieces, workers, gate)?;
    let Round {
        receipts,
        left,
        outs,
    } = round;
    let Ok(given) = settle_pieces(alloc, pipe, outs) else {
        return Err(NoMemory);
    };
    Ok(PipeRound {
        parts: given,
        receipts,
        left,
    })
}

// What is made of each piece by itself, in order.
fn work_pieces<H: Threads + Wait + Sync, G: Gate>(
    rt: &H,
    alloc: Global,
    pieces: &[HeldPiece],
    workers: u32,
    gate: &G,
) -> Result<Round<Item<Outcome<Kept>>>, NoMemory>
    requires count { length pieces.now ≤ 2 ^ 62 }
    requires workers { (1 ≤ workers) × (workers ≤ 64) }
    ensures workers { IfOk result (λ r. vec_len r.receipts ≡ workers) }
    ensures balanced { IfOk result (λ r. IsBalanced (length pieces.now) (map lists_of r.receipts.items) r.left.items) }
    ensures numbers { IfOk result (λ r. map (λ out. out.number) r.outs.items ≡ range_with_len 0 (length pieces.now)) }
    ensures made { IfOk result (λ r. All (λ out. IsMadeAt pieces.now out.number out.value) r.outs.items) }
{
    let mut labours = labours_over(alloc, pieces, workers)?;
    let round = run_round(rt, alloc, pieces.len() as u64, &mut labours, gate)?;
    Ok(round)
}
