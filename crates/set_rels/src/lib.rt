//! Set operations over record batches (Substrait `SetRel`). `set_op` finds the rows that are alike in a table of chains, counts
//! them by input and takes the rows of the operation, as `plan_denote/specs/Sets.antt` defines them: null equals null.
#![tactic(auto)]

mod keyed_rows;
mod one_batch;
mod pieces;
mod sets;
mod typed;

pub use sets::set_op;
