//! A plan as pipelines: each takes its rows from a read relation or from earlier pipelines, passes them through steps that go row by
//! row, and ends in a breaker that needs them all. Here stand the pipelines as data, what they give where they run in order, and the
//! laws by which a pipeline's input can be worked in pieces.
//!
//! `specs/Run.antt` says what runs in order, whatever a stream is. `specs/RowMeaning.antt` takes streams of rows, by the
//! definitions of `plan_denote`, and `specs/TypeMeaning.antt` the types of their columns, by those of `well_typed`.
//! `specs/Pieces.antt` says what is done for each piece of an input, and what is done behind the last.
#![tactic(auto)]

mod fetch_laws;
mod pieces_laws;
mod pipe;
mod run_laws;

pub use fetch_laws::{fetch_of_glued, fetch_of_pieces};
pub use pieces_laws::{
    marks_in_any_order, marks_of_more_pieces, pieces_combine, rest_behind_a_fault,
    used_marks_decide,
};
pub use pipe::{Breaker, Feed, Pipe, Step};
pub use run_laws::{earlier_streams_stay, earlier_tables_stay, last_stream, last_table};
