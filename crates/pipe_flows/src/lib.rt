//! What is kept for a pipeline's breaker of what comes through its steps, by rounds of workers: behind the files of a read relation, behind
//! rows that stand in the plan, or behind what earlier pipelines gathered. For each read relation a receipt is added. It stands on
//! `pipe_feeds` and `read_rounds`. Its meaning stands in `plan_pipes/specs/` and `pipe_parts/specs/`, and in its own `specs/` what read
//! relations read and what their receipts say.
#![tactic(auto)]

mod alone;
mod counted;
mod flowed;
mod read;
mod receipts;
mod virtual_read;

pub use alone::{flow_set, flow_stored};
pub use flowed::Flowed;
pub use read::flow_read;
pub use read_rounds::{Crew, PipeSteps};
