//! Rows as batches, for whoever writes what the row engine (`row_engine`) gives.
#![tactic(auto)]

mod batches;

pub use batches::{rows_to_batch, rows_to_batches};
