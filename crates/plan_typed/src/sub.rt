// Checked plans with the places at which the values of their subqueries go.
use crate::{Rel, Typed};
use plan_leaves::Items;

/// What a subquery gives: the value of its one row, the values to search, or whether it has a row.
#[derive(Clone, Copy, Debug, PartialEq, Eq, Hash)]
pub enum SubKind {
    Scalar,
    In,
    Exists,
}

/// The place of a subquery's value: a relation, and the number of a node among its expressions, in pre-order.
#[derive(Clone, Copy, Debug, PartialEq, Eq, Hash)]
pub struct Hole {
    pub relation: u32,
    pub node: u32,
}

/// A checked subquery.
#[derive(Drop)]
pub struct Sub {
    pub rel: Rel,
    pub kind: SubKind,
    pub hole: Hole,
}

/// A checked plan and its subqueries, each inner one before the one that holds it.
#[derive(Drop)]
pub struct Holed {
    pub typed: Typed,
    pub subs: Items<Sub>,
}
