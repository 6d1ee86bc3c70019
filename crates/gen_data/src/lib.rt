//! The demo: its plan, its tables, and what it says. It stands on `spell_tree`, by which the plan's tree becomes bytes, and on
//! `arrow_write`, by which the tables become files. Its meaning stands in its own `specs/`: the rows (`Rows.antt`), the plan as it
//! is written (`Plan.antt`) and as it is checked (`Checked.antt`), what it reads (`Reads.antt`), the files (`Files.antt`), and the summary (`Summary.antt`).
#![tactic(auto)]

mod columns;
mod folder;
mod plan;
mod tables;

pub use folder::{MAX_NUMBER, demo_folder};
