//! Rounds of workers over what feeds a pipeline: pieces in memory, or the blocks of the files of a read relation, which the workers read.
//! Each piece or block is claimed once, and what is kept of what the pipeline's steps give over all of them is put together in order. It
//! stands on `pipe_round`, `table_round` and `open_blocks`. Its meaning stands in `plan_pipes/specs/` and `pipe_parts/specs/`, and in its
//! own `specs/` what files tell.
#![tactic(auto)]

mod files;
mod pieces;
mod round;
mod workers;

pub use files::read_named;
pub use pieces::pass_pieces;
pub use round::FeedRound;
pub use table_round::{Part, PipeSteps};
pub use workers::Crew;
