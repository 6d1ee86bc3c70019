//! The parts of a plan's tree that hold no relation and no expression, read from the messages of a readable plan,
//! and `Deeper`, by which readers go one level further down. It stands on `plan_scan` for messages and on
//! `plan_raw` for the tree. Its own `specs/` define the tree of a plan's bytes (`plan_of` in `Reader.antt`), for
//! this crate and for `plan_exprs`, `plan_rels` and `plan_decode`.
#![tactic(auto)]

mod argument;
mod at;
mod common;
mod declared;
mod deeper;
mod files;
mod literal;
mod mask;
mod options;
mod reference;
mod schema;
mod types;

pub use argument::arguments_at;
pub use at::{boxed_expr_at, expr_at, exprs_at, rel_at, rels_at};
pub use common::common_at;
pub use declared::{functions_at, uris_at};
pub use deeper::Deeper;
pub use files::{local_files, named_table};
pub use literal::{literal_at, literal_of, literal_rows_at};
pub use mask::mask_at;
pub use options::options_at;
pub use reference::selection;
pub use schema::named_struct_at;
pub use types::type_at;
