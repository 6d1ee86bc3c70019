//! What a plan is checked for, by definitions: the first refusal of a plan, or the checked plan. It stands on the trees of plans
//! (`plan_raw`, `plan_typed`) and on `func_table`, and has no code but the types of refusals. Its meaning stands in its own
//! `specs/`: the verdict in `Verdict.antt`, relations in `Rels.antt`, `Reads.antt` and `Aggregates.antt`, expressions in
//! `Exprs.antt`, and the parts that hold neither in `Types.antt`, `Literals.antt`, `Casts.antt`, `Calls.antt` and `Columns.antt`.
#![tactic(auto)]

mod call;
mod groups;
mod progress;
mod rule;

pub use call::Call;
pub use groups::{Group, Groups};
pub use progress::Progress;
pub use rule::{CheckError, Rule};
