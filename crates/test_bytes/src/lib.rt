//! Byte strings that several test crates use: plans, Arrow files and the metadata in them, each laid out by hand from
//! the formats or by another tool, and none by the engine. It stands on nothing, and has no meaning of its own.
#![tactic(auto)]

mod files;
mod messages;
mod plans;

pub use files::THREE_ROWS_FILE;
pub use messages::{FOOTER, RECORD_MESSAGE};
pub use plans::THREE_ROWS_PLAN;
