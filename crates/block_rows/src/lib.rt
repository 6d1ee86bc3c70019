//! What a worker makes of a block of a table that was read: its rows as a batch of the table's types, each tested, and the fault behind
//! them. It stands on `block_source`, `round_end`, `arrow_decode` and `table_rows`. Its meaning stands in its own `specs/Made.antt`.
#![tactic(auto)]

mod kinds;
mod made;
mod table;
mod work;

pub use table::TableRows;
pub use work::RowsWork;
