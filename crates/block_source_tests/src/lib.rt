//! Rounds over the blocks of files at concrete types: the rows of each block are counted, by readers in memory, and the
//! tests of what no clause says.
#![tactic(auto)]

mod counting;
mod opening;
mod run;
#[cfg(test)]
mod tests;

pub use counting::RowCount;
pub use opening::{OpenFiles, open_files};
pub use run::count_rows;
