//! A round of workers: the numbers below a count, each claimed, loaded and worked once, by one worker or by the
//! caller, with the outcomes in the order of their numbers. It is generic in what is loaded and in what is done
//! with it. It stands on `crew`, `hand_off`, `scan_claims` and `run_core`. Its meaning stands in its own `specs/`.
#![tactic(auto)]

mod close;
mod outcomes;
mod rest;
mod round;

pub use round::{Round, run_round};
