//! The rows of a named table: the blocks of its Arrow files as batches of the plan's types, each row tested, up to
//! the first fault. It stands on `arrow_read` and `arrow_decode`. Its meaning stands in its own `specs/`:
//! `read_row` in `Read.antt` and `file_streams` in `Blocks.antt`.
#![tactic(auto)]

mod bits;
mod check;
mod columns;
mod file;
mod first;
mod piece;
mod retype;

pub use check::check_batch;
pub use file::read_file;
pub use piece::{TableRead, read_piece};
pub use retype::retyped;
