// The parts of an aggregate relation and of a sort relation (Substrait `AggregateRel` and `SortField`).
use crate::{FunctionArgument, RawExpr};
use plan_leaves::{FunctionOption, Items, RawType};

/// A `SortField`.
#[cycle(raw)]
#[derive(Drop)]
pub struct SortField {
    pub expr: Option<RawExpr>,
    pub direction: u32,
}

/// An `AggregateRel.Grouping`.
#[cycle(raw)]
#[derive(Drop)]
pub struct Grouping {
    pub grouping_expressions: Items<RawExpr>,
    /// Places in the relation's own `grouping_expressions`.
    pub expression_references: Items<u32>,
}

/// An `AggregateFunction`.
#[cycle(raw)]
#[derive(Drop)]
pub struct AggregateFunction {
    pub function_reference: u32,
    pub sorts: Items<SortField>,
    pub phase: u32,
    pub output_type: Option<RawType>,
    pub invocation: u32,
    pub arguments: Items<FunctionArgument>,
    pub options: Items<FunctionOption>,
}

/// An `AggregateRel.Measure`.
#[cycle(raw)]
#[derive(Drop)]
pub struct Measure {
    pub measure: Option<AggregateFunction>,
    pub filter: Option<RawExpr>,
}
