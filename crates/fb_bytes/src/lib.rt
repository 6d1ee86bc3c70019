//! FlatBuffers: tables read out of bytes, and objects laid out as bytes. It stands on `byteorder`. Its meaning
//! stands in its own `specs/`: `Reading.antt` (where tables, vectors and fields stand) and `Layout.antt` (the bytes
//! of an object).
#![tactic(auto)]

mod bad_buffer;
mod fields;
mod laws;
mod number;
mod object;
mod own;
mod put;
mod table;
mod vector;
mod write;

pub use bad_buffer::BadBuffer;
pub use laws::{laid_lengths, laid_reads_back};
pub use object::{FbField, FbObject};
pub use table::Table;
pub use vector::FbVector;
pub use write::fb_write;
