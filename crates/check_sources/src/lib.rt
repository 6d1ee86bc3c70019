//! The checks of what reads read, for the checker of plans (`plan_check`): rows of literals and expressions, and tables by their
//! names. Its meaning stands in `plan_verdict/specs/Reads.antt`.
#![tactic(auto)]

mod rows;
mod sources;

pub use sources::source;
