//! Which bytes of a plan are readable, with the first flaw of those that aren't, and the messages of a readable
//! plan, by field, whose numbers `field` names. It stands on `pb_wire`, and on `simdutf8` for texts. The first flaw
//! and the table of messages and fields are defined in its own `specs/`; what a field gives is `pb_wire`'s
//! `specs/Payloads.antt`.
#![tactic(auto)]

mod blocks;
mod children;
mod choice;
pub mod field;
mod flaw;
mod index;
mod laws;
mod merged;
mod message;
mod oneof;
mod records;
mod scan;
mod shape;
mod table;
mod values;
mod won;

pub use children::Children;
pub use choice::Choice;
pub use flaw::Flaw;
pub use laws::winner_is_there;
pub use merged::Merged;
pub use message::Message;
pub use oneof::OneOf;
pub use scan::flaw_of;
pub use shape::{Shape, Use};
pub use table::use_of_field;
