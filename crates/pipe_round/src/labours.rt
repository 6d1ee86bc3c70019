// The labours of the workers: each is lent all pieces, and takes those that it claims through the steps.
ghost use Rattle.std.specs.Prelude.{◌≡◌, All, vec_len, IfOk};
ghost use Rattle.pipe_round.specs.Unused.{IsUnused};

use piece_source::PieceSource;
use pipe_labour::PipeLabour;
use pipe_work::{HeldPiece, Kept, PieceWork};
use round_end::Outcome;
use std::alloc::Global;
use sub_types::NoMemory;

pub(crate) type PieceLabour<'l, 'p, 's> = PipeLabour<
    PieceSource<'l, HeldPiece<'p, 's>>,
    PieceWork,
    Outcome<Kept>,
>;

// A labour over the pieces that has read and made nothing.
fn labour_over<'l, 'p, 's>(
    alloc: Global,
    pieces: &'l [HeldPiece<'p, 's>],
) -> PieceLabour<'l, 'p, 's>
    ensures { IsUnused pieces.now result.source.pieces.now result.source.loaded.items result.outs.items }
{
    let source = PieceSource::new(alloc, pieces);
    PipeLabour::new(alloc, source, PieceWork)
}

/// So many of them.
pub(crate) fn labours_over<'l, 'p, 's>(
    alloc: Global,
    pieces: &'l [HeldPiece<'p, 's>],
    workers: u32,
) -> Result<Vec<PieceLabour<'l, 'p, 's>>, NoMemory>
    ensures count { IfOk result (λ labours. vec_len labours ≡ workers) }
    ensures unused { IfOk result (λ labours. All (λ l. IsUnused pieces.now l.source.pieces.now l.source.loaded.items l.outs.items) labours.items) }
{
    let mut labours = Vec::with_capacity(alloc, workers as usize)?;
    for _ in 0..workers {
        labours.push_reserved(labour_over(alloc, pieces));
    }
    Ok(labours)
}
