// A piece by itself through the steps, with marks of its own.
ghost use Rattle.std.specs.Prelude.{◌≡◌, IfOk};
ghost use Rattle.batch.specs.BatchRows.{rows_of, stream_of_piece, types_of};
ghost use Rattle.pipe_steps.specs.Ready.{IsReady};
ghost use Rattle.pipe_work.specs.Kept.{IsMade};
ghost use Rattle.pipe_work.specs.Passed.{IsPassed};

use crate::keeping::kept_of;
use crate::kept::Kept;
use crate::passed::Passed;
use crate::pipe::PipeSteps;
use batch::Piece;
use pipe_steps::{marks_of, pass};
use round_end::Outcome;
use std::alloc::Global;
use sub_types::NoMemory;

/// What the steps give for a piece by itself, with marks of the right rows that it alone matches.
pub fn pass_alone(alloc: Global, pipe: &PipeSteps, piece: Piece) -> Result<Passed, NoMemory>
    requires types { types_of piece.batch ≡ pipe.now.types }
    requires ready { IsReady pipe.now.steps piece.batch }
    ensures { IfOk result (IsPassed pipe.now (stream_of_piece piece)) }
{
    let mut marks = marks_of(alloc, pipe.steps, pipe.tables)?;
    let passed = pass(alloc, pipe.steps, pipe.tables, &mut marks, piece)?;
    Ok(Passed {
        piece: passed,
        marks,
    })
}

/// What is kept of it for the pipeline's breaker, as an outcome: made where the steps end in no fault, and else ended by that fault.
pub fn outcome_of(alloc: Global, pipe: &PipeSteps, piece: Piece) -> Result<Outcome<Kept>, NoMemory>
    requires types { types_of piece.batch ≡ pipe.now.types }
    requires ready { IsReady pipe.now.steps piece.batch }
    ensures { IfOk result (IsMade pipe.now (stream_of_piece piece)) }
{
    let passed = pass_alone(alloc, pipe, piece)?;
    let end = passed.piece.end;
    let kept = kept_of(alloc, pipe, passed)?;
    match end {
        None => Ok(Outcome::Made(kept)),
        Some(fault) => Ok(Outcome::Ended(kept, fault)),
    }
}

// A piece with the same rows and the same end.
pub(crate) fn copied(alloc: Global, piece: &Piece) -> Result<Piece, NoMemory>
    ensures stream { IfOk result (λ copy. stream_of_piece copy ≡ stream_of_piece piece.now) }
    ensures types { IfOk result (λ copy. types_of copy.batch ≡ types_of piece.now.batch) }
    ensures rows { IfOk result (λ copy. rows_of copy.batch ≡ rows_of piece.now.batch) }
{
    let batch = piece.batch.slice(alloc, 0, piece.batch.rows)?;
    Ok(Piece {
        batch,
        end: piece.end,
    })
}
