//! A pipeline's input in pieces, worked by many workers: each piece goes through the steps by itself, whatever the workers' turns are,
//! and what is kept of what they give is put together in the order of the pieces, with that of the right rows that no piece matched behind
//! them. It stands on `pipe_work`, `pipe_parts`, `crew_round`, `piece_source` and `round_end`. Its meaning stands in its own `specs/`, in
//! `plan_pipes/specs/` and in `pipe_parts/specs/`.
#![tactic(auto)]

mod labours;
mod merging;
mod pieces;
mod round;
mod together;

pub use pieces::run_pieces;
pub use pipe_work::{Part, PipeSteps, hold_pieces};
pub use round::PipeRound;
pub use together::settle_pieces;
