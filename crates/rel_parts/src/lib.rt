//! The parts of checked relations as those who work on whole inputs take them: the keys and the rest of a join's condition, the
//! groups and measures of an aggregate, the columns by which a sort orders, and the columns of a set operation. What these parts
//! mean stands in `plan_denote/specs/` and `well_typed/specs/`.
#![tactic(auto)]

mod conditions;
mod groupings;
mod joins;
mod sets;
mod sorts;

pub use groupings::{agg_spec, set_spec};
pub use joins::{cross_spec, join_spec};
pub use sets::set_types;
pub use sorts::{first_columns, key_exprs, key_orders};
