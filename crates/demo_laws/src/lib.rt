//! Laws of the demo: its plan is accepted and reads back from its bytes, its files hold its tables, and what the plan denotes over them
//! ends in no fault. They stand on the definitions of the demo (`gen_data`) and of plans, files and rows; it has no definition of
//! its own.
#![tactic(auto)]

mod files;
mod plan;
mod rows;

pub use files::demo_files_hold_the_tables;
pub use plan::{
    demo_plan_is_accepted, demo_plan_is_short, demo_plan_is_spellable, demo_plan_reads,
};
pub use rows::demo_denotes_no_fault;
