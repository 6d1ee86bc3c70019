//! The columns of a record batch, decoded from the buffers of its body (Arrow columnar format). It stands on
//! `batch` for columns, and needs no reader: a record batch's metadata and body are its whole input. Its meaning
//! stands in `arrow_meta/specs/`: `Values.antt` (what a column's buffers hold), `Batch.antt` and `Dictionary.antt`.
#![tactic(auto)]

mod buffer;
mod column;
mod decoding;
mod dictionary;
mod error;
mod extents;
mod fixed;
mod index;
mod number;
mod raw;
mod text;
mod texts;
mod values;

pub use decoding::decode;
pub use dictionary::DictColumn;
pub use error::RawError;
pub use raw::Raw;
pub use texts::decode_texts;
