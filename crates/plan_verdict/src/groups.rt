// The groups of an aggregate.
use plan_leaves::Items;
use plan_typed::Expr;

/// A checked grouping expression, and whether it holds a subquery.
#[derive(Drop)]
pub struct Group {
    pub expr: Expr,
    pub holds_subquery: bool,
}

/// The groups of an aggregate, and its sets of them by their places.
#[derive(Drop)]
pub struct Groups {
    pub groups: Items<Expr>,
    pub sets: Items<Items<u32>>,
}
