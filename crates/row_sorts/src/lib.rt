//! Sorts, set operations and distinct rows, for the row engine (`row_engine`). Their meaning stands in `plan_denote/specs/`:
//! `Sort.antt`, `Sets.antt` and `Distinct.antt`.
#![tactic(auto)]

mod distinct;
mod sets;
mod sort;

pub use distinct::{distinct_rows, distinct_values, is_same_row};
pub use sets::set_rows;
pub use sort::sorted;
