//! The steps that take record batches one by one: the rows of a batch at which a condition is true, expressions behind its
//! columns, its columns in another order, and the rows from an offset on. Each gives the stream that `plan_denote` defines.
#![tactic(auto)]

mod fetching;
mod filtering;
mod keeping;
mod projecting;
mod stops;

pub use fetching::fetch;
pub use filtering::filter;
pub use keeping::keep;
pub use projecting::project;
