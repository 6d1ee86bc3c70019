//! What stands around a command: the words of a command line read by position, the answers of a command with their numbers and
//! lines, and the receipts of a run on the calling thread. Its meaning stands in its own `specs/`: `Words.antt`, `Lines.antt` and
//! `Said.antt`, `Alone.antt`.
#![tactic(auto)]

mod line;
mod receipts;
mod status;
mod words;

pub use line::{say_check_line, say_line, say_pieces};
pub use plan_verdict::Rule;
pub use receipts::one_receipt;
pub use status::{PipeReceipt, Report, Status, exit_number};
pub use table_open::FileRule;
pub use words::{Command, DemoReading, Reading, command_of, read_check, read_demo, read_words};
