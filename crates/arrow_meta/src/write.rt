// The footer and the messages of a file, in bytes.
mod footer;
mod message;
mod record;
mod schema;
mod structs;
mod types;

pub use footer::write_footer;
pub use message::write_schema_message;
pub use record::write_record_message;
