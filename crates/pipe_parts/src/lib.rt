//! What a worker keeps of a piece that came through a pipeline's steps, for the breaker at the pipeline's end: what is known of its groups,
//! its rows in order, a part of a join's table, or the piece itself. The parts of all pieces in order are put together by `pipe_ends`.
//!
//! Its own `specs/` say what is kept of a piece, and of which rows parts are.
#![tactic(auto)]

mod grouping;
mod keeping;
mod kinds;
mod part;
mod sorting;
mod tables;

pub use keeping::part_of;
pub use kinds::are_kinds;
pub use part::Part;
