// Rows in order, and what ends them.
use plan_leaves::Items;
use sub_types::{Fault, Value};

/// Rows in order, and the fault that ends them, if one does. Contracts speak of it as `seen`.
#[derive(Debug, Drop)]
pub struct Stream<R> {
    pub rows: Items<R>,
    pub end: Option<Fault>,
}

/// Rows as lists of values.
pub type RowStream = Stream<Items<Value>>;
