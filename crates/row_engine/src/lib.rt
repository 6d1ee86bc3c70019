//! The rows of a checked plan, computed row by row as its definition goes: what the operators over batches are compared with.
#![tactic(auto)]

mod run;
mod tables;

pub use row_steps::{RowStream, Stream};
pub use run::run_rows;
pub use tables::{Table, table_rows};
