//! The checker of plans: the checked plan, or its first refusal. The checks of expressions (`check_exprs`) and of relations
//! (`check_rels`, `check_groups`) call one another only through the trait `Deeper`, and `knot.rt` is where they meet. Its meaning
//! stands in `plan_verdict/specs/`.
#![tactic(auto)]

mod knot;
mod plan;

pub use plan::{check, check_holes};
pub use plan_verdict::{CheckError, Rule};
