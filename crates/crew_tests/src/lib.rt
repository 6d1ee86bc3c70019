//! Rounds of workers at concrete types: a source that gives each number, a work that halves it, and the tests of
//! what no clause says.
#![tactic(auto)]

mod halves;
mod pieces;
mod run;
#[cfg(test)]
mod tests;

pub use halves::{Half, Numbers};
pub use pieces::{HalfPiece, run_piece_halves};
pub use run::run_halves;
