//! The parts of a plan's untyped tree that hold no relation and no expression, with copies of them, and a `Vec` and
//! a `Box` that contracts see as what they hold, so that a tree of them is plain data. It stands on `sub_types`. A
//! tree is its own meaning, as data; `specs/` says that a copy equals what is copied.
#![tactic(auto)]

mod both;
mod boxed;
mod common;
mod copy_in;
mod extensions;
mod files;
mod items;
mod literal;
mod mask;
mod options;
mod reference;
mod schema;
mod types;

pub use both::zip;
pub use boxed::Boxed;
pub use common::RelCommon;
pub use copy_in::CopyIn;
pub use extensions::{FunDecl, UriDecl};
pub use files::{FileItem, ItemPath, LocalFiles};
pub use items::Items;
pub use literal::{LiteralRow, RawLiteral};
pub use mask::{MaskExpression, MaskItem, MaskStruct};
pub use options::FunctionOption;
pub use reference::{ReferenceSegment, StructField};
pub use schema::{NamedStruct, NamedTable};
pub use types::{RawType, StructType};
