//! A plan's tree written back into bytes: what the bytes of a tree are, and that they read back as the tree. It stands on
//! `pb_write`, and on `plan_parts`, by which plans are read. Its meaning stands in its own `specs/`: what each message
//! holds, field by field (`Parts.antt`), the bytes of a tree and when it has bytes of its own (`Spelled.antt`).
#![tactic(auto)]

mod laws;

pub use laws::spelled_trees_read_back;
