//! The steps of a pipeline over its pieces: each piece goes through them by itself, and marks the right rows that it matched; behind the
//! last piece come the right rows that none marked. All pieces together give what the steps give over the whole input.
//!
//! Its meaning stands in `plan_pipes/specs/` (`Run.antt`, `RowMeaning.antt`, `Pieces.antt`), what is well typed in `pipe_types/specs/`, and
//! in its own `specs/` how tables are seen, which batches may go through steps, and which marks belong to them.
#![tactic(auto)]

mod built;
mod finishing;
mod marking;
mod passing;
mod probing;
mod reading;
mod running;
mod stepping;
mod stored_types;

pub use built::BuiltTable;
pub use finishing::finish;
pub use marking::marks_of;
pub use passing::pass;
pub use running::run_steps;
pub use stored_types::types_through;
