//! The rows of a plan over files that are open for its read relations, by rounds of workers; then all readers are given back. It stands on
//! `plan_rounds`, which runs the plan's relations, and `open_blocks`, which takes the files apart from their readers. Its meaning stands
//! in `plan_denote/specs/Subqueries.antt` (`denote_plan`) and `plan_tables/specs/Tables.antt` (`tables_of`).
#![tactic(auto)]

mod gather;

pub use gather::gather_plan;
pub use plan_rounds::{Crew, Gathered};
