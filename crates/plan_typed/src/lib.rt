//! The typed tree of a checked plan, with copies of it. It stands on `plan_leaves`; nothing of today's way uses it.
//! A tree is its own meaning, as data.
#![tactic(auto)]

mod expr;
mod expr_copy;
mod rel;
mod rel_copy;
mod sub;

pub use expr::{Expr, Func, Overflow};
pub use rel::{JoinKind, Op, Rel, SetMeasure, SetOp, SortKey, Source, Typed, TypedMeasure};
pub use sub::{Hole, Holed, Sub, SubKind};
