//! The workers of a round: each has its place at the claims and at the hand-off, and a labour of its own. They run
//! in as many threads as the caller says, and each stays in its place, so that its labour can be taken back whatever
//! became of it. It stands on `hand_off`, `scan_claims` and `run_core`. Its meaning stands in its own `specs/`.
#![tactic(auto)]

mod fork;
mod gives;
mod parts;
mod worker;

pub use fork::run_workers;
pub use gives::Gives;
pub use parts::{Parts, parts_of, workers_of};
pub use worker::Worker;
