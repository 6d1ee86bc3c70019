//! Columns of numbers of a fixed width and of truth values: values in one buffer, validity beside it, one bit a
//! value. It stands on `sub_types` and `byteorder`. Contracts see a column, a view and a builder as its list of
//! optional values; which kinds have which width is in its own `specs/`.
#![tactic(auto)]

mod bool_builder;
mod bool_view;
mod bools;
mod fixed;
mod fixed_builder;
mod gathered_bits;
mod native;
mod view;

pub use bool_builder::BoolBuilder;
pub use bool_view::BoolView;
pub use bools::BoolCol;
pub use fixed::Fixed;
pub use fixed_builder::FixedBuilder;
pub use native::Native;
pub use view::View;
