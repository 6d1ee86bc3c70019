//! The run of an accepted plan: the files of its read relations are opened, its rows are worked out over them by rounds of workers, and the
//! out file is written; the batches of a bare read are written as they are. Its meaning stands in its own `specs/`: `Done.antt`
//! (`done_in`), `Fits.antt` for what each answer leaves, and `Bare.antt` for which plans are bare reads.
#![tactic(auto)]

mod bare;
mod rows;
mod run;
mod write;

pub use rows::{Ran, rows_of_plan};
pub use run::run_accepted;
