//! The rows of a plan by rounds of workers over the open files of its read relations: its subqueries are worked out one after the other,
//! and then its main relation, each by `table_engine`. Its meaning stands in `plan_denote/specs/Subqueries.antt` (`denote_plan`).
#![tactic(auto)]

mod receipts;
mod run;

pub use run::run_plan;
pub use table_engine::{Crew, Gathered};
