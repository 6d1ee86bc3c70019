// What is kept of what the steps make of a piece.
use hash_join::Marks;
use pipe_parts::Part;

/// What is kept for a pipeline's breaker of what the steps give for a piece by itself, and for each step the right rows that the piece
/// matched.
#[derive(Drop)]
pub struct Kept {
    pub part: Part,
    pub marks: Vec<Marks>,
}
