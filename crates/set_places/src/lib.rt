//! Which rows of its first input a set operation takes, by how often each row is in each input. Rows are numbered from 0, input
//! after input, and found by their keys in a table of chains. It stands on `hash_chains`; that the rows which are taken are those
//! of the operation (`plan_denote/specs/Sets.antt`) is a law here.
#![tactic(auto)]

mod counts;
mod laws;
mod marks;
mod taken;

pub use laws::taken_rows_are_the_operation;
pub use taken::taken_rows;
