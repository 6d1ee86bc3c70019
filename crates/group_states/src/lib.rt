//! What is known of the groups of rows: their keys, and what is kept of each for each measure. The rows of a batch go to it, and what
//! is known of later rows.
#![tactic(auto)]

mod columns;
mod groups;

pub use groups::Groups;
