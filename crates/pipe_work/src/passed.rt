// What the steps make of a piece.
use batch::Piece;
use hash_join::Marks;

/// What the steps of a pipeline give for a piece by itself, and for each step the right rows that it matched.
#[derive(Drop)]
pub struct Passed {
    pub piece: Piece,
    pub marks: Vec<Marks>,
}
