//! `cut`: a checked plan as pipelines in the order in which they run, a join's right input before its left one. What the pipelines
//! give stands in `plan_pipes/specs/`, and what is proved of them in this crate's `specs/Cut.antt`: the last one gives what the plan
//! denotes, each read relation feeds one, and of a well-typed plan each is well typed.
#![tactic(auto)]

mod plan;

pub use plan::cut;
