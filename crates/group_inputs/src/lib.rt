//! What an aggregate takes of the rows of a batch: the keys of the rows and what each measure takes of them, evaluated column by
//! column. The first fault is that of the least row, and on it that of the first expression, as `entries_of` of `group_laws` says.
#![tactic(auto)]

mod arguments;
mod before;
mod inputs;
mod keys;
mod taking;

pub use inputs::{Evaluated, Inputs, inputs_of};
