//! The functions of a plan on whole columns, by `kernels` where one fits the columns' types: comparisons and arithmetic of
//! numbers of one type, comparisons of texts and binaries, tests of texts and parts of them, tests for null, `between`, `xor` and `not`. Each argument is a
//! column or a constant, which isn't laid out as a column. Where no kernel fits, the answer is `None`; no clause says where one
//! does.
#![tactic(auto)]

mod arithmetic;
mod call;
mod comparisons;
mod decimals;
mod made;
mod nulls;
mod numbers;
mod operand;
mod parts;
mod ranges;
mod searches;
mod text_order;
mod texts;
mod truths;

pub use call::{call_one, call_three, call_two};
pub use operand::Operand;
