//! Columns of texts and binaries: the bytes in one buffer, where each ends in another, validity beside them. It
//! stands on `sub_types`. Contracts see a column, a view and a builder as its list of optional byte lists.
#![tactic(auto)]

mod builder;
mod column;
mod ends;
mod narrow;
mod view;

pub use builder::TextBuilder;
pub use column::TextCol;
pub use ends::Ends;
pub use view::TextView;
