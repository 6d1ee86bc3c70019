//! The wire format of Protocol Buffers, written: varints, records and messages from their last byte to their first, and
//! that what is written is read back. It stands on `pb_wire`. Its meaning stands in its own `specs/Write.antt`.
#![tactic(auto)]

mod backwards;
mod laws;

pub use backwards::Backwards;
pub use laws::{messages_read_back, packed_numbers_read_back};
