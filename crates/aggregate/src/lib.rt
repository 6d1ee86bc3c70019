//! Aggregates (Substrait `AggregateRel` with one grouping or none) over record batches. A partial state takes batch after batch, and
//! the states of later batches; what it gives at the end is what `plan_denote/specs/Aggregate.antt` says of all rows together,
//! wherever they are cut. It stands on `group_inputs` for the expressions at a batch's rows, and on `group_states` for the groups.
#![tactic(auto)]

mod finals;
mod folding;
mod keeping;
mod merging;
mod partial;
mod state;

pub use partial::Partial;
