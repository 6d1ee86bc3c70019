//! Columns of any kind, and record batches: columns of one length. It stands on `col_fixed` and `col_text`. What
//! rows a batch holds is `rows_of` in its own `specs/BatchRows.antt`.
#![tactic(auto)]

mod batch;
mod batch_methods;
mod column;
mod column_builder;
mod column_data;
mod column_data_methods;
mod column_methods;
mod column_view;
mod column_view_methods;
mod data_builder;
mod data_builder_methods;
mod data_view;
mod data_view_methods;
mod join;
mod nullable;
mod storage;

pub use batch::{Batch, Piece};
pub use column::Column;
pub use column_builder::ColumnBuilder;
pub use column_data::ColumnData;
pub use column_view::ColumnView;
pub use data_view::DataView;
pub use join::join_batches;
pub use storage::Storage;
