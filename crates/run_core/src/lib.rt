//! The run machine: what the steps of many workers may do to the numbers of one run, and what their receipts then
//! show. The running program's claims, hand-off and workers take just these steps. It stands on `sub_types`. Its
//! meaning stands in its own `specs/`: `Machine.antt` (the steps) and `Receipts.antt` (a balanced receipt).
#![tactic(auto)]

mod event;
mod laws;
mod receipt;
mod run;
mod state;

pub use event::{Event, Held};
pub use laws::{balanced_when_over, kept_by_events};
pub use receipt::Receipt;
pub use run::Run;
