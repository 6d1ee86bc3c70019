//! The untyped tree of a plan's messages: relations, expressions and plans as they are written, with copies of
//! them. It stands on `plan_leaves`. A tree is its own meaning, as data, and a read by its parts is in
//! `specs/Read.antt`; which tree a plan's bytes have is defined in `plan_parts/specs/Reader.antt`.
#![tactic(auto)]

mod aggregate;
mod aggregate_copy;
mod argument;
mod expr;
mod expr_copy;
mod plan;
mod rel;
mod rel_copy;
mod source;
mod source_copy;

pub use aggregate::{AggregateFunction, Grouping, Measure, SortField};
pub use argument::FunctionArgument;
pub use expr::{IfClause, IfValue, RawExpr};
pub use plan::{PlanTree, RootDecl};
pub use rel::{RawCount, RawOffset, RawRel};
pub use source::{ExprRow, RawSource, VirtualTable};
