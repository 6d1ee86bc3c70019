//! What the footer and the messages of an Arrow file say, and which bytes are written for rows. It stands on
//! `fb_bytes`. Its own `specs/` define what an Arrow file holds, for all crates that read and write them: `file_of`
//! in `File.antt`, `head_of` in `Head.antt`, `rows_of` and `table_of` in `Table.antt`, dictionaries in
//! `Dictionary.antt`, columns in `Values.antt`.
#![tactic(auto)]

mod columns;
mod error;
mod field;
mod meta;
mod read;
mod write;

pub use columns::{Columns, Schema};
pub use error::MetaError;
pub use field::{FieldMeta, Layout, Shape};
pub use meta::{Block, Pairs, RecordMeta};
pub use read::{read_dictionary, read_footer, read_message};
pub use write::{write_footer, write_record_message, write_schema_message};
