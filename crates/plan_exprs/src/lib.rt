//! The expressions of a plan, read from the messages of a readable plan. It stands on `plan_parts`, and reads the
//! relations of subqueries by way of its `Deeper`. Its meaning stands in `plan_parts/specs/`.
#![tactic(auto)]

mod expr;
mod subquery;

pub use expr::expression_by;
