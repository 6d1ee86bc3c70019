//! What is done with the rows at a pipeline's end, over what is kept of its pieces (`pipe_parts`): they are gathered, fetched, sorted,
//! put in groups, or built into a table of a join's right rows; and the set operations over what several pipelines gathered.
//!
//! Its meaning stands in `plan_pipes/specs/RowMeaning.antt` (`gathered`, `table_of`, and `set_rows` of `plan_denote`), what is well
//! typed in `pipe_types/specs/`, what parts are in `pipe_parts/specs/`, and in its own `specs/` which pieces a set operation may be
//! given.
#![tactic(auto)]

mod ends;
mod fetching;
mod gathering;
mod grouping;
mod kinds;
mod merging;
mod rows;
mod set_feeds;
mod set_groups;
mod sorting;
mod tables;
mod taking;
mod types;

pub use ends::ended_alone;
pub use gathering::gather;
pub use set_feeds::sets;
pub use tables::build;
pub use types::types_gathered;
