// Pieces in memory that may go through steps.
ghost use Rattle.std.specs.Prelude.{◌≡◌};
ghost use Rattle.std.proofs.Props.{props};
ghost use Rattle.batch.specs.BatchRows.{types_of};
ghost use Rattle.pipe_steps.specs.Ready.{IsReady};
ghost use Rattle.pipe_work.specs.ReadyProp.{IsReady-prop};

use crate::pipe::PipeSteps;
use batch::Piece;

/// A piece in memory with the steps that it may go through.
#[derive(Drop)]
pub struct HeldPiece<'p, 's> {
    pub pipe: &'p PipeSteps<'s>,
    pub piece: Piece,
    pub ghost typed: { types_of piece.batch ≡ pipe.now.types } by { Prim.hlevel props },
    pub ghost ready: { IsReady pipe.now.steps piece.batch } by { IsReady-prop pipe.now.steps piece.batch },
}
