//! A table's files, read and worked by many workers: each block goes through the steps by itself, whatever the workers' turns are, and what
//! is kept of what they give is put together in the order of the blocks. It stands on `block_work`, `block_source` and `pipe_round`. Its
//! meaning stands in its own `specs/` and in `plan_pipes/specs/`.
#![tactic(auto)]

mod table;

pub use block_work::TableSteps;
pub use pipe_round::{Part, PipeRound, PipeSteps, hold_pieces, run_pieces};
pub use table::run_table;
