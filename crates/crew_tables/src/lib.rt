//! The tables of a plan, read by many workers: the blocks of a read relation's files are claimed, read, decoded and tested by so many
//! workers, whatever their turns are, and stand in the table in the order of the files. It stands on `plan_tables` and `block_rows`. Its
//! meaning stands in `plan_tables/specs/` (`IsReadOf`) and in its own `specs/`.
#![tactic(auto)]

mod apart;
mod close;
mod read;
mod receipt;
mod round;
mod table;
mod workers;

pub use read::{CrewTables, read_by_crew};
pub use round::{TableRound, run_table};
pub use workers::Crew;
