//! Aggregates over several sets of groups, or with measures of distinct values (Substrait `AggregateRel` with several groupings), over
//! record batches. A partial state takes batch after batch, each of which is read once for all sets, and the states of later batches;
//! what it gives at the end is what `plan_denote/specs/GroupSets.antt` says of all rows together, wherever they are cut. It stands on
//! `set_states` for the groups, and on `set_rows` for their rows.
#![tactic(auto)]

mod finals;
mod folding;
mod measures;
mod merging;
mod partial;
mod state;
mod types;

pub use partial::SetsPartial;
