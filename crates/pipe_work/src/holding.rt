// Pieces in memory, held for the workers.
ghost use Rattle.std.specs.Prelude.{◌≡◌, All, IfOk, map};
ghost use Rattle.batch.specs.BatchRows.{types_of};
ghost use Rattle.pipe_steps.specs.Ready.{IsReady};

use crate::held::HeldPiece;
use crate::pipe::PipeSteps;
use batch::Piece;
use std::alloc::Global;
use sub_types::NoMemory;

/// The pieces in order, each with the steps that it may go through.
pub fn hold_pieces<'p, 's>(
    alloc: Global,
    pipe: &'p PipeSteps<'s>,
    pieces: Vec<Piece>,
) -> Result<Vec<HeldPiece<'p, 's>>, NoMemory>
    requires typed { All (λ piece. types_of piece.batch ≡ pipe.now.types) pieces.items }
    requires ready { All (λ piece. IsReady pipe.now.steps piece.batch) pieces.items }
    ensures held { IfOk result (λ held. map (λ one. one.piece) held.items ≡ pieces.items) }
    ensures of_pipe { IfOk result (λ held. All (λ one. one.pipe.now ≡ pipe.entry.now) held.items) }
{
    let mut held = Vec::with_capacity(alloc, pieces.len())?;
    for piece in pieces {
        held.push(HeldPiece { pipe, piece })?;
    }
    Ok(held)
}
