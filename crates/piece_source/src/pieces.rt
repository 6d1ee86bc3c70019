// Pieces lent by their number.
ghost use Rattle.std.specs.Prelude.{◌≡◌, [], ℕ};

use pipe_labour::Source;
use std::alloc::Global;
use std::collections::LinkedList;
use std::marker::Sync;
use sub_types::NoMemory;

/// Pieces that many workers share, and the numbers that this one read.
#[derive(Drop)]
pub struct PieceSource<'a, P> {
    pub pieces: &'a [P],
    pub loaded: Vec<u64>,
}

impl<'a, P> PieceSource<'a, P> {
    /// A source over the pieces that has read nothing yet.
    pub fn new(alloc: Global, pieces: &'a [P]) -> PieceSource<'a, P>
        ensures pieces { result.pieces.now ≡ pieces.now }
        ensures loaded { result.loaded.items ≡ [] }
    {
        PieceSource {
            pieces,
            loaded: Vec::new(alloc),
        }
    }
}

impl<'a, P: Sync> Source for PieceSource<'a, P> {
    /// The piece, or `None` past the last.
    type Given = Option<&'a P>;

    type About = LinkedList<P>;

    ghost use Rattle.piece_source.specs.Pieces.{IsPieceAt};

    ghost about = { λ s. s.pieces.now };

    ghost loaded = { λ s. s.loaded.items };

    ghost failures = { λ _. 0 };

    ghost gives = { IsPieceAt };

    ghost fails = { λ _ _ _. ⊥ };

    fn read(&mut self, _alloc: Global, number: u64) -> Result<Option<&'a P>, NoMemory> {
        self.loaded.push(number)?;
        Ok(self.pieces.get(number as usize))
    }
}
