//! The read relations of a checked plan, those of its subqueries among them, by their numbers. Its meaning stands in its own
//! `specs/Reads.antt`.
#![tactic(auto)]

mod reads;

pub use reads::{Origin, PlanRead, reads_of};
