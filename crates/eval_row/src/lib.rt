//! What an expression is worth at a row, value by value: at a row of a batch, or at a plain list of values. One body serves
//! both, generic over where a column's value comes from.
#![tactic(auto)]

mod eval;
mod row;

pub use eval::{Cell, cell_at, eval_expr, eval_row};
pub use eval_values::EvalError;
pub use row::{BatchRow, PlainRow, RowValues};
