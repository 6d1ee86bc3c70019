//! Aggregates, over one set of groups or many, for the row engine (`row_engine`). Their meaning stands in `plan_denote/specs/`:
//! `Aggregate.antt` and `GroupSets.antt`.
#![tactic(auto)]

mod aggregate;
mod entries;
mod group_sets;
mod measures;

pub use aggregate::aggregated;
pub use group_sets::grouping_sets;
