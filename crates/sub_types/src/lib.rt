//! The base types of the engine: kinds, types, values and faults, lists of bytes and of truth values, and texts. It
//! stands on std alone, and all other crates stand on it. Its meaning stands in its own `specs/`: what it means
//! that a row fits its types, streams of rows and faults, packed bits, and steps that may give nothing or be
//! refused.
#![tactic(auto)]

mod bits;
mod byte_list;
mod fault;
mod kind;
mod laws;
mod memory;
mod value;
mod word;

pub use bits::Bits;
pub use byte_list::ByteList;
pub use fault::{Fault, FaultKind};
pub use kind::{Kind, Ty};
pub use laws::{each_of_glued, each_stream_of_glued, glue_of_glued};
pub use memory::NoMemory;
pub use value::Value;
pub use word::Word;
