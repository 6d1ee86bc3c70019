//! Sorts of record batches. `sort_run` puts the rows of a batch in order of their keys, and `interleave` those of several runs
//! that are in order. Both give the one arrangement that `plan_denote/specs/Sort.antt` defines: rows with equal keys keep their
//! order.
#![tactic(auto)]

mod order;
mod prefixes;
mod run_laws;
mod runs;
mod scale;
mod sort;
mod ties;

pub use run_laws::sorted_runs_are_the_whole;
pub use runs::interleave;
pub use sort::sort_run;
