//! Pieces of rows as the batches of a relation: those up to the first that ends in a fault, with the types of the relation's columns,
//! which are of the same kinds. No value is copied. Its own `specs/` say which rows these are.
#![tactic(auto)]

mod pieces;

pub use pieces::{EndedBatches, in_batches};
