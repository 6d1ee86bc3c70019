//! What a measure makes of the values of a group, for the row engine (`row_engine`): counts, exact sums, averages, least and greatest
//! values. Their meaning stands in `plan_denote/specs/`: `Aggregate.antt` and `Tally.antt`.
#![tactic(auto)]

mod tally;
mod total;

pub use tally::{final_of, not_null};
