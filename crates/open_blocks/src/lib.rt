//! The files of a plan's read relations, open to be read by many workers: the heads and the blocks of the files of each read relation
//! apart from their readers. It stands on `plan_tables`, which opens the files, and `block_source`, which numbers their blocks. Its meaning
//! stands in its own `specs/`.
#![tactic(auto)]

mod apart;
mod close;
mod files;
mod take;

pub use close::close_files;
pub use files::ReadFiles;
pub use take::take_files;
