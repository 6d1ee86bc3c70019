// What is kept of pieces that came through the steps.
ghost use Rattle.std.specs.Prelude.{All, IfOk};
ghost use Rattle.plan_pipes.specs.Run.{through};
ghost use Rattle.pipe_types.specs.Exact.{exact_steps};
ghost use Rattle.pipe_steps.specs.Behind.{IsStored};
ghost use Rattle.pipe_steps.specs.Tables.{joins_of};
ghost use Rattle.pipe_parts.specs.Parts.{AreParts};
ghost use Rattle.pipe_work.specs.Kept.{IsKept};

use crate::kept::Kept;
use crate::passed::Passed;
use crate::pipe::PipeSteps;
use batch::Piece;
use pipe_parts::{Part, part_of};
use std::alloc::Global;
use sub_types::NoMemory;

/// What is kept of a piece for the pipeline's breaker, with the same marks.
pub(crate) fn kept_of(alloc: Global, pipe: &PipeSteps, passed: Passed) -> Result<Kept, NoMemory>
    requires stored { IsStored (through exact_steps (joins_of pipe.now.tables) pipe.now.steps pipe.now.types) passed.piece }
    ensures { IfOk result (IsKept pipe.now.breaker passed) }
{
    let Passed { piece, marks } = passed;
    let part = part_of(alloc, pipe.breaker, piece)?;
    Ok(Kept { part, marks })
}

/// What is kept of each piece, in order.
pub(crate) fn parts_of(
    alloc: Global,
    pipe: &PipeSteps,
    pieces: Vec<Piece>,
) -> Result<Vec<Part>, NoMemory>
    requires stored { All (IsStored (through exact_steps (joins_of pipe.now.tables) pipe.now.steps pipe.now.types)) pieces.items }
    ensures { IfOk result (λ parts. AreParts pipe.now.breaker pieces.items parts.items) }
{
    let mut parts = Vec::with_capacity(alloc, pieces.len())?;
    for piece in pieces {
        let part = part_of(alloc, pipe.breaker, piece)?;
        parts.push(part)?;
    }
    Ok(parts)
}
