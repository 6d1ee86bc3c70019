//! The functions of a plan over columns, each as fast as its data allows, and each equal to its definition in
//! `plan_denote`. It stands on `col_fixed` for columns, and hands on the tests of texts of `text_match`.
#![tactic(auto)]

mod all_rows;
mod arithmetic;
mod comparison;
mod constants;
mod logic;
mod op;
mod places;
mod selected;
mod selection;
mod total;

pub use arithmetic::{arith, arith_constant};
pub use comparison::{compare, compare_constant};
pub use constants::{arith_from, arith_with, compare_from, compare_with};
pub use logic::{and3, not3, or3, xor3};
pub use op::{ArithOp, CompareOp};
pub use places::select;
pub use selected::Rows;
pub use selection::{Selection, Stop};
pub use text_match::{contains, ends_with, like, starts_with};
pub use total::{WideSum, sum};
