//! Pipelines that are being made: a flow is one without its breaker, and relations add steps to it or end it with a breaker. What a
//! flow gives behind the pipelines so far stands in `specs/Given.antt`, in the words of `plan_pipes`.
#![tactic(auto)]

mod flow;
mod pipes;
mod sorting;

pub use flow::{Flow, filter_flow, keep_flow, post_flow, project_flow, read_flow, set_flow};
pub use pipes::Pipes;
pub use sorting::sort_flow;
