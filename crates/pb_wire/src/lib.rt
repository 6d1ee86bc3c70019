//! The wire format of Protocol Buffers: varints, and the records of a message one after the other. It stands on
//! `byteorder`. Its meaning stands in its own `specs/`: a varint, a record, the list of a message's records and
//! where it stops, and the payload rules of proto3 over them (`Payloads.antt`).
#![tactic(auto)]

mod fields;
mod laws;
mod number;
mod packed;
mod record;

pub use fields::Fields;
pub use laws::{numbers_by_places, records_by_places, records_of_joined};
pub use number::varint;
pub use packed::Packed;
pub use record::{Payload, Record};
