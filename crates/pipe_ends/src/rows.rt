// Batches as pieces, and the batches of pieces.
ghost use Rattle.std.specs.Prelude.{◌≡◌, None, map, All, IfOk};

use batch::{Batch, Piece};
use std::alloc::Global;
use sub_types::NoMemory;

/// Batches as pieces without a fault.
pub(crate) fn pieces_of(alloc: Global, batches: Vec<Batch>) -> Result<Vec<Piece>, NoMemory>
    ensures batches { IfOk result (λ pieces. map (λ piece. piece.batch) pieces.items ≡ batches.items) }
    ensures ends { IfOk result (λ pieces. All (λ piece. piece.end ≡ None) pieces.items) }
{
    let mut pieces = Vec::with_capacity(alloc, batches.len())?;
    for batch in batches {
        pieces.push(Piece { batch, end: None })?;
    }
    Ok(pieces)
}

/// The batches of pieces.
pub(crate) fn batches_of(alloc: Global, pieces: Vec<Piece>) -> Result<Vec<Batch>, NoMemory>
    ensures { IfOk result (λ batches. batches.items ≡ map (λ piece. piece.batch) pieces.items) }
{
    Ok(pieces.into_iter().map(|piece| piece.batch).collect(alloc)?)
}
