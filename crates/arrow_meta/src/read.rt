// What the footer and the messages of a file say.
mod block;
mod footer;
mod look;
mod message;
mod shape;

pub use footer::read_footer;
pub use message::{read_dictionary, read_message};
