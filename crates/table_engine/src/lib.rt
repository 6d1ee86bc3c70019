//! The rows of a checked relation, by many workers: it is cut into pipelines, which run in order (`pipe_runs`). Its meaning stands in
//! `plan_denote/specs/Denote.antt` (`denote`); what each pipeline gives in `plan_pipes/specs/`, and what stands in memory after so many
//! of them in `pipe_runs/specs/Stands.antt`.
#![tactic(auto)]

mod run;

pub use pipe_runs::Crew;
pub use run::{Gathered, run_tree};
