//! The numbers of a run's batches, which workers claim from one shared word: each number is drawn by one worker,
//! once. A claim is one atomic exchange; it waits for nobody and takes no memory. It stands on `run_core` and
//! `atomic_table`. Its meaning stands in its own `specs/`.
#![tactic(auto)]

mod claims;
mod rule;
mod seat;

pub use claims::Claims;
pub use seat::{ClaimSeat, Drawn, Ticket};
