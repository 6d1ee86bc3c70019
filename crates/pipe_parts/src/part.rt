// Parts.
use aggregate::Partial;
use batch::Piece;
use group_sets::SetsPartial;
use hash_join::BuildPart;
use sub_types::Fault;

/// What is kept of a piece for a breaker.
#[derive(Drop)]
pub enum Part {
    /// The piece, in order where the breaker sorts.
    Rows(Piece),
    /// What is known of its groups.
    Groups(Partial),
    /// The same over several sets of groups.
    Sets(SetsPartial),
    /// A part of a join's table, and the piece's end.
    Built(BuildPart, Option<Fault>),
}
