//! The checks of expressions, for the checker of plans (`plan_check`). Relations hold expressions and expressions hold the
//! relations of subqueries; their checks call one another only through the trait `Deeper`. Its meaning stands in
//! `plan_verdict/specs/`.
#![tactic(auto)]

mod arms;
mod cast;
mod column;
mod columns;
mod conditional;
mod deeper;
mod each;
mod expr;
mod function;
mod inputs;
mod list;
mod progress;
mod steps;
mod subquery;
mod switch;
mod terms;

pub use column::constant;
pub use columns::{columns_of_each, copied, joined, types_of};
pub use deeper::Deeper;
pub use each::{each_of, each_of_two};
pub use expr::{condition, condition_box, each_in, expression_by, maybe_condition, required};
pub use function::{arguments, called};
pub use inputs::input;
pub use progress::{next_node, next_relation, nodes_from, start};
pub use steps::{kind_of, part, refuse};
pub use terms::Terms;
