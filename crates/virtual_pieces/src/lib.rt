//! The rows of a relation that stand in the plan, as its read relation reads them, in pieces that workers may claim: one for each 1,024
//! of them, each up to its own first fault. It stands on `row_steps` and `row_batches`. Its meaning stands in
//! `plan_denote/specs/Read.antt`, and in its own `specs/` what a piece holds.
#![tactic(auto)]

mod virtual_rows;

pub use virtual_rows::{Reading, read_virtual};
