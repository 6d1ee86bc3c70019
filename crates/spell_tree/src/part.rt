// What a message that relations or expressions stand in holds, field by field, as it stands in a plan's tree.
ghost use Rattle.std.specs.Prelude.{◌≡◌, length};
ghost use Rattle.spell_tree.specs.Seen.{trees_seen};

use plan_leaves::Items;
use plan_raw::{
    AggregateFunction, ExprRow, FunctionArgument, Grouping, IfClause, IfValue, Measure, PlanTree,
    RawExpr, RawRel, RootDecl, SortField, VirtualTable,
};
use spell_leaves::PartRef;

/// The message that a relation is written as: `Rel`, or the member of its oneof.
#[derive(Clone, Copy)]
pub(crate) enum RelRole {
    Rel,
    Read,
    Filter,
    Fetch,
    Aggregate,
    Sort,
    Join,
    Project,
    Set,
    Cross,
}

/// The message that an expression is written as: `Expression`, or what stands in its oneof.
#[derive(Clone, Copy)]
pub(crate) enum ExprRole {
    Expression,
    ScalarFunction,
    FieldReference,
    IfThen,
    Switch,
    SingularOrList,
    Cast,
    Subquery,
    Scalar,
    InPredicate,
    SetPredicate,
}

/// The messages of a field, by what they are written from. A slice has one where the field is singular and there. What points
/// at relations or expressions is dear to check wherever it stands: one variant has all messages of each, and lists are behind
/// their `Items`.
#[derive(Clone, Copy)]
pub(crate) enum TreesRef<'a> {
    Plan(&'a PlanTree),
    PlanRel(&'a [RootDecl]),
    RelRoot(&'a [RootDecl]),
    Rels(RelRole, &'a [RawRel]),
    VirtualTable(&'a [VirtualTable]),
    ExpressionRow(&'a [ExprRow]),
    Grouping(&'a Items<Grouping>),
    Measure(&'a Items<Measure>),
    AggregateFunction(&'a [AggregateFunction]),
    SortField(&'a Items<SortField>),
    Exprs(ExprRole, &'a [RawExpr]),
    FunctionArgument(&'a Items<FunctionArgument>),
    IfClause(&'a Items<IfClause>),
    IfValue(&'a Items<IfValue>),
}

impl<'a> TreesRef<'a> {
    /// How many messages there are.
    pub(crate) fn len(&self) -> usize
        ensures { result ≡ length (trees_seen self.now).nodes }
    {
        match *self {
            TreesRef::Plan(_) => 1,
            TreesRef::PlanRel(roots) | TreesRef::RelRoot(roots) => roots.len(),
            TreesRef::Rels(_, rels) => rels.len(),
            TreesRef::VirtualTable(tables) => tables.len(),
            TreesRef::ExpressionRow(rows) => rows.len(),
            TreesRef::Grouping(groupings) => groupings.len(),
            TreesRef::Measure(measures) => measures.len(),
            TreesRef::AggregateFunction(functions) => functions.len(),
            TreesRef::SortField(sorts) => sorts.len(),
            TreesRef::Exprs(_, exprs) => exprs.len(),
            TreesRef::FunctionArgument(arguments) => arguments.len(),
            TreesRef::IfClause(clauses) => clauses.len(),
            TreesRef::IfValue(values) => values.len(),
        }
    }
}

/// A field: one that holds no relation and no expression, or a number and the messages under it.
#[derive(Clone, Copy)]
pub(crate) enum TreePart<'a> {
    Leaf(PartRef<'a>),
    Trees(u32, TreesRef<'a>),
}
