//! Values that are found at once among many: whether a value is one of the options of a `singular_or_list`, without a look at one
//! option after the other.
#![tactic(auto)]

mod answers;
mod constants;
mod set;

pub use answers::{answer, answer_bytes, answer_int, answers_are_denoted};
pub use constants::set_of_constants;
pub use set::ValueSet;
