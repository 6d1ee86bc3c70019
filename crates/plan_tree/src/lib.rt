//! Plans as trees, both under one name: the untyped tree of a plan's messages, and the typed tree of a checked
//! plan. It stands on `plan_raw` and `plan_typed`; nothing of today's way uses it. How the relations of either are
//! numbered, and how many a relation holds, is defined in its own `specs/Numbering.antt`; `count_relations` counts
//! them up to a limit, so that a plan of too many relations is refused before anything else of it is checked.
#![tactic(auto)]

mod count;
mod count_exprs;

pub use count::count_relations;
pub use plan_leaves::{
    FileItem, FunDecl, FunctionOption, ItemPath, LiteralRow, LocalFiles, MaskExpression, MaskItem,
    MaskStruct, NamedStruct, NamedTable, RawLiteral, RawType, ReferenceSegment, RelCommon,
    StructField, StructType, UriDecl,
};
pub use plan_raw::{
    AggregateFunction, ExprRow, FunctionArgument, Grouping, IfClause, IfValue, Measure, PlanTree,
    RawCount, RawExpr, RawOffset, RawRel, RawSource, RootDecl, SortField, VirtualTable,
};
pub use plan_typed::{
    Expr, Func, Hole, Holed, JoinKind, Op, Overflow, Rel, SetMeasure, SetOp, SortKey, Source, Sub,
    SubKind, Typed, TypedMeasure,
};
