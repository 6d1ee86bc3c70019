//! The relations of a plan, read from the messages of a readable plan. It stands on `plan_parts`, and reads
//! expressions by way of its `Deeper`. Its meaning stands in `plan_parts/specs/`.
#![tactic(auto)]

mod aggregate;
mod fetch;
mod read;
mod rel;

pub use rel::relation_by;
