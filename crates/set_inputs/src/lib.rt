//! What sets of groups take of the rows of a batch: beside the columns of the keys one of nulls, which stands for the groups that a
//! set lacks, and a column for each measure over distinct values. So one batch has the keys of all sets, and the values with them.
#![tactic(auto)]

mod inputs;
mod places;
mod values;

pub use inputs::{SetInputs, inputs_over_sets};
pub use places::{columns_over, with_first};
