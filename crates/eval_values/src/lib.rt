//! What a function of the table and a cast are worth at given values. It stands on `plan_denote`, whose definitions are
//! its meaning: each function here equals the definition of its name, or finds no memory. Its own `specs/` say what a
//! result that may find no memory has to do with what it is to be, and the same of a number that 128 bits may not hold.
#![tactic(auto)]

mod calls;
mod casts;
mod decimals;
mod digits;
mod error;
mod logic;
mod number;
mod order;
mod parts;
mod patterns;
mod texts;
mod whole;

pub use calls::apply;
pub use casts::cast;
pub use error::EvalError;
pub use logic::{is_null, is_true};
pub use order::{compare, is_same};
