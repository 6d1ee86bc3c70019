// What subqueries are worth.
use plan_leaves::Items;
use plan_typed::Hole;
use sub_types::{Ty, Value};

/// What a subquery gives: a value, or the values among which another is looked for, with their type.
#[derive(Debug, Drop)]
pub enum Worth {
    Single(Value),
    Among { column: Ty, found: Items<Value> },
}

/// What a subquery is worth, and the place where it goes.
#[derive(Debug, Drop)]
pub struct KnownWorth {
    pub hole: Hole,
    pub worth: Worth,
}
