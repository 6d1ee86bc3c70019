//! The table of functions: the scalar and aggregate functions of Substrait's extension files that the engine has, at
//! which kinds of arguments it has them, and which of their options it honours. It stands on `sub_types` for the kinds
//! and on `plan_typed` for the functions. Its meaning stands in its own `specs/`: the table in `Table.antt`, the calls
//! that an entry takes in `Entry.antt`, the row of a call in `Find.antt`, and the options in `Options.antt`.
#![tactic(auto)]

mod key;
mod kinds;
mod laws;
mod line;
mod look_up;
mod options;
mod row;
mod table;
mod text;

pub use key::is_key_of_kinds;
pub use kinds::is_equal;
pub use laws::{equal_kinds_are_equal, one_row_fits};
pub use look_up::{find, find_bytes, has_name, has_name_bytes};
pub use options::{honours, honours_bytes};
pub use row::{Class, ResultRule, Row};
