//! The rows that grouping sets give: of each set in order its groups, up to the first fault of a measure. A measure over distinct
//! values gets what it keeps of them here, once for each group.
#![tactic(auto)]

mod columns;
mod row;
mod rows;

pub use rows::{Rows, sets_rows};
