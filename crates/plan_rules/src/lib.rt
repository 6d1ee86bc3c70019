//! The checks of the parts of a plan that hold no relation and no expression: types, literals, casts, the functions that
//! calls name, columns, what a read reads, and when checked expressions are equal. It stands on `plan_verdict` and
//! `func_table`. Its meaning stands in `plan_verdict/specs/`.
#![tactic(auto)]

mod calls;
mod casts;
mod columns;
mod declared;
mod held;
mod joins;
mod laws;
mod literals;
mod options;
mod places;
mod refusal;
mod results;
mod same;
mod sources;
mod types;

pub use calls::call_in;
pub use casts::can_cast;
pub use columns::{columns_at, finished_in, mask_in, schema_in};
pub use declared::{Declarations, Named};
pub use func_table::is_equal as is_equal_kind;
pub use held::{beside, must};
pub use joins::{
    amount_of, are_of_kinds, direction_of, join_columns, join_kind, rows_skipped, rows_taken,
    set_columns, set_op,
};
pub use laws::equal_exprs_are_equal;
pub use literals::literal_in;
pub use places::sets_of_places;
pub use same::is_same;
pub use sources::{paths_in, table_name_in};
pub use types::{type_in, type_of};
