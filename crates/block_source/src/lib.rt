//! The blocks of a table's files as a source of many workers: each worker reads the blocks that it claims by readers
//! of its own, one for each file, which are made before the workers start and absorbed once they have ended. It
//! stands on `arrow_read`, `pipe_labour` and `crew_round`. Its meaning stands in its own `specs/`.
#![tactic(auto)]

mod absorb;
mod again;
mod block;
mod file;
mod read;
mod round;
mod source;
mod table;

pub use block::BlockRead;
pub use file::{BlockFile, BlockPlace};
pub use round::run_blocks;
pub use source::{BlockSource, TableSeen};
pub use table::TableBlocks;
