//! What feeds a pipeline that reads no files, and what stands in memory of the pipelines before it: the pieces that an earlier one
//! gathered, a set operation over such, or the rows of a relation that stand in the plan, behind the step that reads them. It stands on
//! `pipe_ends`, `pipe_steps` and `virtual_pieces`. Its meaning stands in its own `specs/` and in `plan_pipes/specs/`.
#![tactic(auto)]

mod feed;
mod stores;

pub use feed::{Through, feed_set, feed_stored, feed_virtual};
pub use pipe_ends::{build, ended_alone, gather, types_gathered};
pub use stores::{Stores, take_stored};
