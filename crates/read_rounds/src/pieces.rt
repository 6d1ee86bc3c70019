// Pieces in memory, through steps.
ghost use Rattle.std.specs.Prelude.{◌≡◌, ◌≤◌, ◌^◌, IfOk, IfSome, map, vec_len};
ghost use Rattle.std.specs.List.{All};
ghost use Rattle.sub_types.specs.Stream.{glue};
ghost use Rattle.run_core.specs.Receipts.{lists_of, IsBalanced};
ghost use Rattle.batch.specs.BatchRows.{stream_of_piece};
ghost use Rattle.pipe_steps.specs.Behind.{IsStored};
ghost use Rattle.read_rounds.specs.Given.{ArePartsThrough};

use crate::round::FeedRound;
use crate::workers::Crew;
use batch::Piece;
use std::alloc::Global;
use std::sync::Wait;
use std::thread::Threads;
use sub_types::NoMemory;
use table_round::{PipeRound, PipeSteps, hold_pieces, run_pieces};
use world::Gate;

/// The most pieces of a round.
const MAX_PIECES: u64 = 1 << 62;

/// What is kept of what steps give over pieces that may go through them, up to the first fault, worked by the workers, whatever their
/// turns are. There are never more than 2^62, which is answered with `NoMemory`.
pub fn pass_pieces<H: Threads + Wait + Sync, G: Gate>(
    crew: &Crew<'_, H, G>,
    alloc: Global,
    pipe: &PipeSteps,
    pieces: Vec<Piece>,
) -> Result<FeedRound, NoMemory>
    requires stored { All (IsStored pipe.now.types) pieces.items }

    // Each piece was claimed once, and finished by one worker or by the caller.
    ensures workers { IfOk result (λ r. vec_len r.receipts ≡ crew.now.workers) }
    ensures batches { IfOk result (λ r. r.batches ≡ vec_len pieces) }
    ensures balanced { IfOk result (λ r. IsBalanced r.batches (map lists_of r.receipts.items) r.left.items) }

    // The parts are those of what the steps give over the whole input.
    ensures parts { IfOk result (λ r. ArePartsThrough pipe.now (glue (map stream_of_piece pieces.items)) r.parts.items) }
{
    let Some(batches) = count_pieces(&pieces) else {
        return Err(NoMemory);
    };
    let held = hold_pieces(alloc, pipe, pieces)?;
    let round = run_pieces(crew.rt, alloc, pipe, &held, crew.workers, crew.gate)?;
    let PipeRound {
        parts,
        receipts,
        left,
    } = round;
    Ok(FeedRound {
        parts,
        batches,
        receipts,
        left,
    })
}

// How many pieces, unless there are more than a round may have.
fn count_pieces(pieces: &Vec<Piece>) -> Option<u64>
    ensures count { IfSome result (λ count. count ≡ vec_len pieces.now) }
    ensures few { IfSome result (λ count. count ≤ 2 ^ 62) }
{
    let count = pieces.len() as u64;
    if count > MAX_PIECES {
        return None;
    }
    Some(count)
}
