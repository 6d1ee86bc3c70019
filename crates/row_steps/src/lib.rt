//! The operators of relations that go row by row, for the row engine (`row_engine`): streams as lists of rows with an end, and what
//! reads, filters, projections, fetches and emits make of them. Their meaning stands in `plan_denote/specs/`.
#![tactic(auto)]

mod each;
mod emit;
mod fetch;
mod filter;
mod glue;
mod lists;
mod project;
mod read;
mod stream;
mod values;

pub use each::{each_of, each_row, ended_at};
pub use emit::{emitted, value_at};
pub use fetch::fetched;
pub use filter::{filtered, filtered_if};
pub use glue::{ended, followed_by, glued};
pub use lists::{collect_of, filter_map_of, map_into, map_of};
pub use project::projected;
pub use read::{read_rows, virtual_rows};
pub use stream::{RowStream, Stream};
pub use values::{condition_at, nulls, row_and, values_at};
