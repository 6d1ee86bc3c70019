//! The tables of a plan: the files of each of its read relations opened by their names, and their blocks read as batches of the
//! plan's types. It stands on `table_open` and `table_rows`. Its meaning stands in its own `specs/Tables.antt`.
#![tactic(auto)]

mod close;
mod counts;
mod open;
mod read;

pub use close::{close_reads, close_tables};
pub use counts::batches_in;
pub use open::{OpenRead, open_reads};
pub use read::read_tables;
