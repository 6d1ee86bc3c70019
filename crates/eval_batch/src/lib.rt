//! What an expression is worth at selected rows of a batch: column by column, equal to its definition row by row in
//! `plan_denote`. It stands on `batch_nodes` for what nodes make of their parts' columns, on `batch_calls` for functions and
//! casts of columns, and on `among_constants` for a `singular_or_list` whose options are constants.
#![tactic(auto)]

mod eval;
mod leaves;
mod lists;
mod nodes;
mod places;
mod quick;
mod selected;

pub use eval::eval_rows;
pub use selected::eval_batch;
