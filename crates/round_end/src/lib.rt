//! What counts of a round: its outcomes in order, up to the first number at which a read or the work failed. It stands
//! on `pipe_labour`. Its meaning stands in its own `specs/`.
#![tactic(auto)]

mod order;
mod outcome;

pub use order::settle;
pub use outcome::{Outcome, Settled};
