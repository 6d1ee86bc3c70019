//! What workers do with the blocks of a table: each decodes a block that was read, and takes its rows by themselves through the steps of
//! the pipeline that reads the table, and keeps of what they give what the pipeline's breaker needs. It stands on `pipe_work`,
//! `block_source`, `arrow_decode` and `table_rows`.
//!
//! The rows of a block stand in `table_rows/specs/Blocks.antt`, and in its own `specs/` what is made of what was read.
#![tactic(auto)]

mod kinds;
mod pieces;
mod reading;
mod work;

pub use reading::TableSteps;
pub use work::BlockWork;
