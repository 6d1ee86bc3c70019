//! The commands of the engine: words and files in, an answer, a line of notes and the out file. It stands on all
//! crates of the way: plans, tables, Arrow files and the world. What a command line denotes is `answer` and
//! `check_answer` in its own `specs/Answer.antt`; what is done with an accepted plan is in
//! `run_accepted`, and words, lines and statuses are in `run_words`.
#![tactic(auto)]

mod accepted;
mod check;
mod command;
mod demo;
mod laws;
mod plan;
mod run;
mod summary;

pub use check::check_main;
pub use command::command_main;
pub use demo::demo_main;
pub use laws::same_rows_same_file;
pub use run::run_main;
pub use run_words::{FileRule, PipeReceipt, Report, Rule, Status, exit_number};
