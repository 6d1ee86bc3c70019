//! Arrow files, read: the head of a file, and the body of one record batch at a time (Arrow columnar format, "IPC
//! File Format"). It stands on `arrow_meta` for messages, `arrow_decode` for columns and `world` for readers. Its
//! meaning stands in `arrow_meta/specs/`: `Head.antt` and `Table.antt`; which reads are made is in its own
//! `specs/`.
#![tactic(auto)]

mod block;
mod copies;
mod dictionaries;
mod dictionary;
mod ends;
mod error;
mod extent;
mod footer;
mod head;
mod metadata;
mod metas;
mod open;
mod place;
mod range;
mod size;

pub use block::read_block;
pub use error::{BlockError, OpenError};
pub use head::FileHead;
pub use open::open_file;
