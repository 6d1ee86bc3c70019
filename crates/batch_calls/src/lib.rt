//! What a function of the table, a cast and an option make of columns: at each place up to the first fault. It stands on
//! `kernels` for whole columns and on `eval_values` for single values.
#![tactic(auto)]

mod apply;
mod casts;
mod joined;
mod options;

pub use apply::apply_columns;
pub use casts::cast_column;
pub use joined::join_all;
pub use options::{look, rows_sought};
