// The halves of pieces in memory.
ghost use Rattle.std.specs.Prelude.{◌≡◌, ◌≤◌, ◌/◌, ◌^◌, All, length, map, slice_index_or, vec_len, IfOk};
ghost use Rattle.std.specs.List.{range_with_len};
ghost use Rattle.run_core.specs.Receipts.{lists_of, IsBalanced};
ghost use Rattle.crew_tests.specs.Pieces.{IsUnused};

use crew_round::{Round, run_round};
use piece_source::PieceSource;
use pipe_labour::{Item, PipeLabour, Work};
use std::alloc::Global;
use std::sync::Wait;
use std::thread::Threads;
use sub_types::NoMemory;
use world::Gate;

/// Halves the number that it is lent.
#[derive(Clone, Copy, Debug)]
pub struct HalfPiece;

impl<'a> Work<Option<&'a u64>> for HalfPiece {
    type Made = u64;

    type Sense = ();

    ghost use Rattle.crew_tests.specs.Pieces.{IsHalfOf};

    ghost sense = { λ _. tt };

    ghost makes = { λ _ _ piece made. IsHalfOf piece made };

    fn make(&self, _alloc: Global, _number: u64, piece: Option<&'a u64>) -> Result<u64, NoMemory> {
        match piece {
            Some(piece) => Ok(*piece / 2),
            None => Ok(0),
        }
    }
}

type Halver<'a> = PipeLabour<PieceSource<'a, u64>, HalfPiece, u64>;

// A labour over the pieces that has read and made nothing.
fn piece_halver<'a>(alloc: Global, pieces: &'a [u64]) -> Halver<'a>
    ensures { IsUnused pieces.now result.source.pieces.now result.source.loaded.items result.outs.items }
{
    let source = PieceSource::new(alloc, pieces);
    PipeLabour::new(alloc, source, HalfPiece)
}

// So many of them.
fn piece_halvers<'a>(
    alloc: Global,
    pieces: &'a [u64],
    workers: u32,
) -> Result<Vec<Halver<'a>>, NoMemory>
    ensures count { IfOk result (λ labours. vec_len labours ≡ workers) }
    ensures unused { IfOk result (λ labours. All (λ l. IsUnused pieces.now l.source.pieces.now l.source.loaded.items l.outs.items) labours.items) }
{
    let mut labours = Vec::with_capacity(alloc, workers as usize)?;
    for _ in 0..workers {
        labours.push_reserved(piece_halver(alloc, pieces));
    }
    Ok(labours)
}

/// The halves of the pieces, in order, by so many workers, whatever their turns are.
pub fn run_piece_halves<H: Threads + Wait + Sync, G: Gate>(
    rt: &H,
    alloc: Global,
    pieces: &[u64],
    workers: u32,
    gate: &G,
) -> Result<Round<Item<u64>>, NoMemory>
    requires count { length pieces.now ≤ 2 ^ 62 }
    requires workers { (1 ≤ workers) × (workers ≤ 64) }
    ensures balanced { IfOk result (λ r. IsBalanced (length pieces.now) (map lists_of r.receipts.items) r.left.items) }
    ensures numbers { IfOk result (λ r. map (λ out. out.number) r.outs.items ≡ range_with_len 0 (length pieces.now)) }
    ensures halves { IfOk result (λ r. All (λ out. out.value ≡ slice_index_or pieces.now out.number 0 / 2) r.outs.items) }
{
    let mut labours = piece_halvers(alloc, pieces, workers)?;
    let round = run_round(rt, alloc, pieces.len() as u64, &mut labours, gate)?;
    Ok(round)
}
