//! The files of a named table: which words of the command line bind its name, each of these files opened, and its
//! columns found by the names of the plan's columns. It stands on `arrow_read` and `world`. Its meaning is
//! `table_files` in its own `specs/Files.antt`, over the split of a binding in `specs/Words.antt`.
#![tactic(auto)]

mod columns;
mod error;
mod file;
mod table;
mod words;

pub use error::{FileRule, TableError};
pub use file::OpenFile;
pub use table::{close_table, open_table};
