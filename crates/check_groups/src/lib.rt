//! The checks of aggregates, their groupings and measures, for the checker of plans (`plan_check`). Its meaning stands in
//! `plan_verdict/specs/Aggregates.antt`.
#![tactic(auto)]

mod aggregate_columns;
mod aggregates;
mod group_places;
mod groups;
mod measure;

pub use aggregates::aggregate;
