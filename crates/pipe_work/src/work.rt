// What a worker does with a piece in memory.
ghost use Rattle.std.specs.Prelude.{IfOk};
ghost use Rattle.batch.specs.BatchRows.{stream_of_piece};
ghost use Rattle.pipe_work.specs.Kept.{IsMade};

use crate::held::HeldPiece;
use crate::kept::Kept;
use crate::passing::{copied, outcome_of};
use pipe_labour::Work;
use round_end::Outcome;
use std::alloc::Global;
use sub_types::NoMemory;

/// Takes a piece that it is lent through the steps that it came with, and keeps what their breaker needs.
#[derive(Clone, Copy, Debug)]
pub struct PieceWork;

impl<'l, 'p, 's> Work<Option<&'l HeldPiece<'p, 's>>> for PieceWork {
    type Made = Outcome<Kept>;

    type Sense = ();

    ghost use Rattle.pipe_work.specs.Held.{IsMadeOf};

    ghost sense = { λ _. tt };

    ghost makes = { λ _ _ held made. IsMadeOf held made };

    fn make(
        &self,
        alloc: Global,
        _number: u64,
        held: Option<&'l HeldPiece<'p, 's>>,
    ) -> Result<Outcome<Kept>, NoMemory> {
        match held {
            Some(held) => pass_held(alloc, held),
            None => Ok(Outcome::ReadFault),
        }
    }
}

// What is kept of what the steps that a piece came with give for a copy of it.
fn pass_held(alloc: Global, held: &HeldPiece) -> Result<Outcome<Kept>, NoMemory>
    ensures { IfOk result (IsMade held.now.pipe.now (stream_of_piece held.now.piece)) }
{
    let piece = copied(alloc, &held.piece)?;
    let outcome = outcome_of(alloc, held.pipe, piece)?;
    Ok(outcome)
}
