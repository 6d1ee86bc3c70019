//! What the nodes of an expression make of their parts' values at selected rows of a batch: values that are lent or made, the
//! rows that a part leaves open for those after it, and the values of both put together. It stands on `batch` for columns and
//! on `kernels` for rows and stops.
#![tactic(auto)]

mod choices;
mod early;
mod found;
mod joining;
mod leaves;
mod scattering;

pub use choices::{decide, rows_choosing};
pub use early::{Early, nothing, rows_left, three_valued};
pub use found::Found;
pub use joining::join;
pub use leaves::column_at;
pub use scattering::scatter;
