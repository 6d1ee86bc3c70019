//! The bounded hand-off: workers offer items to a queue that they share and take items from it. An item that is
//! offered is taken by one worker, or it is left, once; a full queue hands it back at once. It stands on
//! `scan_claims` and `crossbeam_queue`. Its meaning stands in its own `specs/`, over
//! `run_core/specs/Receipts.antt`.
#![tactic(auto)]

mod hand;
mod labour;
mod numbered;
mod pass;
mod rest;
mod rule;
mod work;

pub use hand::HandOff;
pub use labour::Labour;
pub use numbered::{Handed, Numbered};
pub use pass::HandPass;
pub use rest::HandRest;
pub use work::work_all;
