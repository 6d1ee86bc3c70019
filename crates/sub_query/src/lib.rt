//! What subqueries are worth by their rows, a checked relation with their values put in, and a plan whose subqueries are worked
//! out one after the other. The definitions are `worth_of`, `filled` and `denote_plan` in `plan_denote`.
#![tactic(auto)]

mod fill_expr;
mod fill_parts;
mod fill_rel;
mod filling;
mod node_worths;
mod worth;
mod worth_of;

pub use fill_rel::filled_rel;
pub use filling::Filling;
pub use worth::{KnownWorth, Worth};
pub use worth_of::{worth_of_batches, worth_of_rows};
