//! The checks of relations, for the checker of plans (`plan_check`). Its meaning stands in `plan_verdict/specs/`.
#![tactic(auto)]

mod fetch;
mod filter;
mod join;
mod made;
mod read;
mod rel;
mod set;
mod sort;

pub use rel::relation_by;
