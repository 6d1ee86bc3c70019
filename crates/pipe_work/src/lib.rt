//! What workers do with the pieces of a pipeline's input: each takes a piece by itself through the pipeline's steps, marks the right rows
//! that it matches, and keeps of what the steps give what the pipeline's breaker needs. It stands on `pipe_steps`, `pipe_parts`,
//! `pipe_labour` and `round_end`.
//!
//! What the steps give stands in `plan_pipes/specs/` (`Pieces.antt`), and in its own `specs/` what is made of a piece.
#![tactic(auto)]

mod behind;
mod held;
mod holding;
mod keeping;
mod kept;
mod passed;
mod passing;
mod pipe;
mod work;

pub use held::HeldPiece;
pub use holding::hold_pieces;
pub use kept::Kept;
pub use passed::Passed;
pub use passing::{outcome_of, pass_alone};
pub use pipe::PipeSteps;
pub use pipe_parts::Part;
pub use work::PieceWork;
