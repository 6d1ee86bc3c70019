//! Writes Arrow files (Arrow columnar format, "IPC File Format"), message by message. It stands on `arrow_meta` for
//! messages, `batch` for columns and `world` for the folder. Its meaning is `file_of` in
//! `arrow_meta/specs/File.antt`; how rows are cut into record batches of 1,024 is in its own `specs/Cut.antt`.
#![tactic(auto)]

mod batches;
mod body;
mod cursor;
mod cut;
mod encoding;
mod error;
mod file;
mod frame;
mod message;
mod next;
mod numbers;
mod packing;
mod put;
mod values;

pub use error::WriteError;
pub use file::write_file;
