// The fields of relations and of what stands in them, and of a plan and its roots, each in the order in which they are written.
ghost use Rattle.std.specs.Prelude.{◌≡◌, [], ◌∷◌, IfOk, if◌then◌else◌};
ghost use Rattle.std.specs.Option.{option_to_list};
ghost use Rattle.plan_spell.specs.Rels as tables;
ghost use Rattle.plan_raw.specs.declared.aggregate.AggregateFunction.{out-AggregateFunction};
ghost use Rattle.plan_raw.specs.declared.rel.RawCount.{out-RawCount};
ghost use Rattle.plan_raw.specs.declared.rel.RawOffset.{out-RawOffset};
ghost use Rattle.plan_raw.specs.declared.rel.RawRel.{out-RawRel};
ghost use Rattle.plan_raw.specs.declared.source.RawSource.{out-RawSource};
ghost use Rattle.spell_tree.specs.Seen.{rel_parts_as, tree_parts_seen};

use crate::part::{ExprRole, RelRole, TreePart, TreesRef};
use plan_leaves::{LocalFiles, NamedTable};
use plan_raw::{
    AggregateFunction, ExprRow, Grouping, Measure, PlanTree, RawCount, RawExpr, RawOffset, RawRel,
    RawSource, RootDecl, SortField, VirtualTable,
};
use spell_leaves::{
    HeldRef, MessagesRef, PartRef, blocks, boxed, listed, messages, optional, uint32,
};
use std::alloc::Global;
use std::slice;
use sub_types::NoMemory;

// ReadRel.VirtualTable
pub(crate) fn virtual_table_parts<'a>(
    alloc: Global,
    table: &'a VirtualTable,
) -> Result<Vec<TreePart<'a>>, NoMemory>
    ensures { IfOk result (λ parts. tree_parts_seen parts.items ≡ tables.virtual_table_parts table.now) }
{
    listed(
        alloc,
        [
            TreePart::Leaf(messages(1, MessagesRef::LiteralRow(table.values.as_slice()))),
            TreePart::Trees(2, TreesRef::ExpressionRow(table.expressions.as_slice())),
        ],
    )
}

// its rows of expressions
pub(crate) fn expression_row_parts<'a>(
    alloc: Global,
    row: &'a ExprRow,
) -> Result<Vec<TreePart<'a>>, NoMemory>
    ensures { IfOk result (λ parts. tree_parts_seen parts.items ≡ tables.expression_row_parts row.now) }
{
    listed(
        alloc,
        [TreePart::Trees(
            1,
            TreesRef::Exprs(ExprRole::Expression, row.fields.as_slice()),
        )],
    )
}

// the members of a ReadRel's oneof
fn virtual_tables(source: &RawSource) -> &[VirtualTable]
    ensures { result.now ≡ tables.virtual_tables (out-RawSource source.now) }
{
    match source {
        RawSource::VirtualTable(table) => slice::from_ref(table),
        _ => &[],
    }
}

fn local_files(source: &RawSource) -> &[LocalFiles]
    ensures { result.now ≡ tables.local_files (out-RawSource source.now) }
{
    match source {
        RawSource::LocalFiles(files) => slice::from_ref(files),
        _ => &[],
    }
}

fn named_tables(source: &RawSource) -> &[NamedTable]
    ensures { result.now ≡ tables.named_tables (out-RawSource source.now) }
{
    match source {
        RawSource::NamedTable(table) => slice::from_ref(table),
        _ => &[],
    }
}

// ReadRel
fn read_parts<'a>(alloc: Global, rel: &'a RawRel) -> Result<Vec<TreePart<'a>>, NoMemory>
    ensures { IfOk result (λ parts. tree_parts_seen parts.items ≡ tables.read_parts (out-RawRel rel.now)) }
{
    match rel {
        RawRel::Read {
            common,
            base_schema,
            filter,
            projection,
            source,
            best_effort_filter,
        } => listed(
            alloc,
            [
                TreePart::Leaf(messages(1, MessagesRef::RelCommon(optional(common)))),
                TreePart::Leaf(messages(2, MessagesRef::NamedStruct(optional(base_schema)))),
                TreePart::Trees(3, TreesRef::Exprs(ExprRole::Expression, boxed(filter))),
                TreePart::Leaf(messages(4, MessagesRef::MaskExpression(optional(projection)))),
                TreePart::Trees(5, TreesRef::VirtualTable(virtual_tables(source))),
                TreePart::Leaf(messages(6, MessagesRef::LocalFiles(local_files(source)))),
                TreePart::Leaf(messages(7, MessagesRef::NamedTable(named_tables(source)))),
                TreePart::Trees(
                    11,
                    TreesRef::Exprs(ExprRole::Expression, boxed(best_effort_filter)),
                ),
            ],
        ),
        _ => Ok(Vec::new(alloc)),
    }
}

// FilterRel
fn filter_parts<'a>(alloc: Global, rel: &'a RawRel) -> Result<Vec<TreePart<'a>>, NoMemory>
    ensures { IfOk result (λ parts. tree_parts_seen parts.items ≡ tables.filter_parts (out-RawRel rel.now)) }
{
    match rel {
        RawRel::Filter {
            common,
            input,
            condition,
        } => listed(
            alloc,
            [
                TreePart::Leaf(messages(1, MessagesRef::RelCommon(optional(common)))),
                TreePart::Trees(2, TreesRef::Rels(RelRole::Rel, boxed(input))),
                TreePart::Trees(3, TreesRef::Exprs(ExprRole::Expression, boxed(condition))),
            ],
        ),
        _ => Ok(Vec::new(alloc)),
    }
}

// the members of a FetchRel's oneofs
fn offset_number(offset: &RawOffset) -> Option<i64>
    ensures { option_to_list result ≡ tables.offsets (out-RawOffset offset.now) }
{
    match offset {
        RawOffset::Offset(offset) => Some(*offset),
        _ => None,
    }
}

fn offset_exprs(offset: &RawOffset) -> &[RawExpr]
    ensures { result.now ≡ tables.offset_exprs (out-RawOffset offset.now) }
{
    match offset {
        RawOffset::OffsetExpr(expr) => slice::from_ref(expr.get()),
        _ => &[],
    }
}

fn count_number(count: &RawCount) -> Option<i64>
    ensures { option_to_list result ≡ tables.counts (out-RawCount count.now) }
{
    match count {
        RawCount::Count(count) => Some(*count),
        _ => None,
    }
}

fn count_exprs(count: &RawCount) -> &[RawExpr]
    ensures { result.now ≡ tables.count_exprs (out-RawCount count.now) }
{
    match count {
        RawCount::CountExpr(expr) => slice::from_ref(expr.get()),
        _ => &[],
    }
}

// FetchRel
fn fetch_parts<'a>(alloc: Global, rel: &'a RawRel) -> Result<Vec<TreePart<'a>>, NoMemory>
    ensures { IfOk result (λ parts. tree_parts_seen parts.items ≡ tables.fetch_parts (out-RawRel rel.now)) }
{
    match rel {
        RawRel::Fetch {
            common,
            input,
            offset,
            count,
        } => listed(
            alloc,
            [
                TreePart::Leaf(messages(1, MessagesRef::RelCommon(optional(common)))),
                TreePart::Trees(2, TreesRef::Rels(RelRole::Rel, boxed(input))),
                TreePart::Leaf(PartRef {
                    number: 3,
                    held: HeldRef::Int64Member(offset_number(offset)),
                }),
                TreePart::Leaf(PartRef {
                    number: 4,
                    held: HeldRef::Int64Member(count_number(count)),
                }),
                TreePart::Trees(
                    5,
                    TreesRef::Exprs(ExprRole::Expression, offset_exprs(offset)),
                ),
                TreePart::Trees(6, TreesRef::Exprs(ExprRole::Expression, count_exprs(count))),
            ],
        ),
        _ => Ok(Vec::new(alloc)),
    }
}

// AggregateRel
fn aggregate_parts<'a>(alloc: Global, rel: &'a RawRel) -> Result<Vec<TreePart<'a>>, NoMemory>
    ensures { IfOk result (λ parts. tree_parts_seen parts.items ≡ tables.aggregate_parts (out-RawRel rel.now)) }
{
    match rel {
        RawRel::Aggregate {
            common,
            input,
            groupings,
            measures,
            grouping_expressions,
        } => listed(
            alloc,
            [
                TreePart::Leaf(messages(1, MessagesRef::RelCommon(optional(common)))),
                TreePart::Trees(2, TreesRef::Rels(RelRole::Rel, boxed(input))),
                TreePart::Trees(3, TreesRef::Grouping(groupings)),
                TreePart::Trees(4, TreesRef::Measure(measures)),
                TreePart::Trees(
                    5,
                    TreesRef::Exprs(ExprRole::Expression, grouping_expressions.as_slice()),
                ),
            ],
        ),
        _ => Ok(Vec::new(alloc)),
    }
}

// its Grouping
pub(crate) fn grouping_parts<'a>(
    alloc: Global,
    grouping: &'a Grouping,
) -> Result<Vec<TreePart<'a>>, NoMemory>
    ensures { IfOk result (λ parts. tree_parts_seen parts.items ≡ tables.grouping_parts grouping.now) }
{
    listed(
        alloc,
        [
            TreePart::Trees(
                1,
                TreesRef::Exprs(
                    ExprRole::Expression,
                    grouping.grouping_expressions.as_slice(),
                ),
            ),
            TreePart::Leaf(PartRef {
                number: 2,
                held: HeldRef::PackedUint32s(grouping.expression_references.as_slice()),
            }),
        ],
    )
}

// its Measure
pub(crate) fn measure_parts<'a>(
    alloc: Global,
    measure: &'a Measure,
) -> Result<Vec<TreePart<'a>>, NoMemory>
    ensures { IfOk result (λ parts. tree_parts_seen parts.items ≡ tables.measure_parts measure.now) }
{
    listed(
        alloc,
        [
            TreePart::Trees(1, TreesRef::AggregateFunction(optional(&measure.measure))),
            TreePart::Trees(
                2,
                TreesRef::Exprs(ExprRole::Expression, optional(&measure.filter)),
            ),
        ],
    )
}

// AggregateFunction
pub(crate) fn aggregate_function_parts<'a>(
    alloc: Global,
    function: &'a AggregateFunction,
) -> Result<Vec<TreePart<'a>>, NoMemory>
    ensures { IfOk result (λ parts. tree_parts_seen parts.items ≡ tables.aggregate_function_parts (out-AggregateFunction function.now)) }
{
    listed(
        alloc,
        [
            TreePart::Leaf(uint32(1, function.function_reference)),
            TreePart::Trees(3, TreesRef::SortField(&function.sorts)),
            TreePart::Leaf(uint32(4, function.phase)),
            TreePart::Leaf(messages(5, MessagesRef::DataType(optional(&function.output_type)))),
            TreePart::Leaf(uint32(6, function.invocation)),
            TreePart::Trees(7, TreesRef::FunctionArgument(&function.arguments)),
            TreePart::Leaf(messages(8, MessagesRef::FunctionOption(function.options.as_slice()))),
        ],
    )
}

// SortField
pub(crate) fn sort_field_parts<'a>(
    alloc: Global,
    sort: &'a SortField,
) -> Result<Vec<TreePart<'a>>, NoMemory>
    ensures { IfOk result (λ parts. tree_parts_seen parts.items ≡ tables.sort_field_parts sort.now) }
{
    listed(
        alloc,
        [
            TreePart::Trees(
                1,
                TreesRef::Exprs(ExprRole::Expression, optional(&sort.expr)),
            ),
            TreePart::Leaf(uint32(2, sort.direction)),
        ],
    )
}

// SortRel
fn sort_parts<'a>(alloc: Global, rel: &'a RawRel) -> Result<Vec<TreePart<'a>>, NoMemory>
    ensures { IfOk result (λ parts. tree_parts_seen parts.items ≡ tables.sort_parts (out-RawRel rel.now)) }
{
    match rel {
        RawRel::Sort {
            common,
            input,
            sorts,
        } => listed(
            alloc,
            [
                TreePart::Leaf(messages(1, MessagesRef::RelCommon(optional(common)))),
                TreePart::Trees(2, TreesRef::Rels(RelRole::Rel, boxed(input))),
                TreePart::Trees(3, TreesRef::SortField(sorts)),
            ],
        ),
        _ => Ok(Vec::new(alloc)),
    }
}

// JoinRel
fn join_parts<'a>(alloc: Global, rel: &'a RawRel) -> Result<Vec<TreePart<'a>>, NoMemory>
    ensures { IfOk result (λ parts. tree_parts_seen parts.items ≡ tables.join_parts (out-RawRel rel.now)) }
{
    match rel {
        RawRel::Join {
            common,
            left,
            right,
            expression,
            post_join_filter,
            type_,
        } => listed(
            alloc,
            [
                TreePart::Leaf(messages(1, MessagesRef::RelCommon(optional(common)))),
                TreePart::Trees(2, TreesRef::Rels(RelRole::Rel, boxed(left))),
                TreePart::Trees(3, TreesRef::Rels(RelRole::Rel, boxed(right))),
                TreePart::Trees(4, TreesRef::Exprs(ExprRole::Expression, boxed(expression))),
                TreePart::Trees(
                    5,
                    TreesRef::Exprs(ExprRole::Expression, boxed(post_join_filter)),
                ),
                TreePart::Leaf(uint32(6, *type_)),
            ],
        ),
        _ => Ok(Vec::new(alloc)),
    }
}

// ProjectRel
fn project_parts<'a>(alloc: Global, rel: &'a RawRel) -> Result<Vec<TreePart<'a>>, NoMemory>
    ensures { IfOk result (λ parts. tree_parts_seen parts.items ≡ tables.project_parts (out-RawRel rel.now)) }
{
    match rel {
        RawRel::Project {
            common,
            input,
            expressions,
        } => listed(
            alloc,
            [
                TreePart::Leaf(messages(1, MessagesRef::RelCommon(optional(common)))),
                TreePart::Trees(2, TreesRef::Rels(RelRole::Rel, boxed(input))),
                TreePart::Trees(
                    3,
                    TreesRef::Exprs(ExprRole::Expression, expressions.as_slice()),
                ),
            ],
        ),
        _ => Ok(Vec::new(alloc)),
    }
}

// SetRel
fn set_parts<'a>(alloc: Global, rel: &'a RawRel) -> Result<Vec<TreePart<'a>>, NoMemory>
    ensures { IfOk result (λ parts. tree_parts_seen parts.items ≡ tables.set_parts (out-RawRel rel.now)) }
{
    match rel {
        RawRel::Set { common, inputs, op } => listed(
            alloc,
            [
                TreePart::Leaf(messages(1, MessagesRef::RelCommon(optional(common)))),
                TreePart::Trees(2, TreesRef::Rels(RelRole::Rel, inputs.as_slice())),
                TreePart::Leaf(uint32(3, *op)),
            ],
        ),
        _ => Ok(Vec::new(alloc)),
    }
}

// CrossRel
fn cross_parts<'a>(alloc: Global, rel: &'a RawRel) -> Result<Vec<TreePart<'a>>, NoMemory>
    ensures { IfOk result (λ parts. tree_parts_seen parts.items ≡ tables.cross_parts (out-RawRel rel.now)) }
{
    match rel {
        RawRel::Cross {
            common,
            left,
            right,
        } => listed(
            alloc,
            [
                TreePart::Leaf(messages(1, MessagesRef::RelCommon(optional(common)))),
                TreePart::Trees(2, TreesRef::Rels(RelRole::Rel, boxed(left))),
                TreePart::Trees(3, TreesRef::Rels(RelRole::Rel, boxed(right))),
            ],
        ),
        _ => Ok(Vec::new(alloc)),
    }
}

// Rel
fn rel_parts<'a>(alloc: Global, rel: &'a RawRel) -> Result<Vec<TreePart<'a>>, NoMemory>
    ensures { IfOk result (λ parts. tree_parts_seen parts.items ≡ tables.rel_parts rel.now (out-RawRel rel.now)) }
{
    match rel {
        RawRel::Missing | RawRel::Unknown { .. } => Ok(Vec::new(alloc)),
        RawRel::Read { .. } => listed(
            alloc,
            [TreePart::Trees(1, TreesRef::Rels(RelRole::Read, slice::from_ref(rel)))],
        ),
        RawRel::Filter { .. } => listed(
            alloc,
            [TreePart::Trees(2, TreesRef::Rels(RelRole::Filter, slice::from_ref(rel)))],
        ),
        RawRel::Fetch { .. } => listed(
            alloc,
            [TreePart::Trees(3, TreesRef::Rels(RelRole::Fetch, slice::from_ref(rel)))],
        ),
        RawRel::Aggregate { .. } => listed(
            alloc,
            [TreePart::Trees(4, TreesRef::Rels(RelRole::Aggregate, slice::from_ref(rel)))],
        ),
        RawRel::Sort { .. } => listed(
            alloc,
            [TreePart::Trees(5, TreesRef::Rels(RelRole::Sort, slice::from_ref(rel)))],
        ),
        RawRel::Join { .. } => listed(
            alloc,
            [TreePart::Trees(6, TreesRef::Rels(RelRole::Join, slice::from_ref(rel)))],
        ),
        RawRel::Project { .. } => listed(
            alloc,
            [TreePart::Trees(7, TreesRef::Rels(RelRole::Project, slice::from_ref(rel)))],
        ),
        RawRel::Set { .. } => listed(
            alloc,
            [TreePart::Trees(8, TreesRef::Rels(RelRole::Set, slice::from_ref(rel)))],
        ),
        RawRel::Cross { .. } => listed(
            alloc,
            [TreePart::Trees(12, TreesRef::Rels(RelRole::Cross, slice::from_ref(rel)))],
        ),
    }
}

// a relation as one of its messages
pub(crate) fn parts_as<'a>(
    alloc: Global,
    role: RelRole,
    rel: &'a RawRel,
) -> Result<Vec<TreePart<'a>>, NoMemory>
    ensures { IfOk result (λ parts. tree_parts_seen parts.items ≡ rel_parts_as role rel.now) }
{
    match role {
        RelRole::Rel => rel_parts(alloc, rel),
        RelRole::Read => read_parts(alloc, rel),
        RelRole::Filter => filter_parts(alloc, rel),
        RelRole::Fetch => fetch_parts(alloc, rel),
        RelRole::Aggregate => aggregate_parts(alloc, rel),
        RelRole::Sort => sort_parts(alloc, rel),
        RelRole::Join => join_parts(alloc, rel),
        RelRole::Project => project_parts(alloc, rel),
        RelRole::Set => set_parts(alloc, rel),
        RelRole::Cross => cross_parts(alloc, rel),
    }
}

// RelRoot
pub(crate) fn root_parts<'a>(
    alloc: Global,
    root: &'a RootDecl,
) -> Result<Vec<TreePart<'a>>, NoMemory>
    ensures { IfOk result (λ parts. tree_parts_seen parts.items ≡ tables.root_parts root.now) }
{
    listed(
        alloc,
        [
            TreePart::Trees(1, TreesRef::Rels(RelRole::Rel, boxed(&root.input))),
            TreePart::Leaf(blocks(2, root.names.as_slice())),
        ],
    )
}

// the RelRoot of a PlanRel
fn roots(root: &RootDecl) -> &[RootDecl]
    ensures { result.now ≡ (if root.now.is_root then root.now ∷ [] else []) }
{
    if root.is_root {
        slice::from_ref(root)
    } else {
        &[]
    }
}

// PlanRel
pub(crate) fn plan_rel_parts<'a>(
    alloc: Global,
    root: &'a RootDecl,
) -> Result<Vec<TreePart<'a>>, NoMemory>
    ensures { IfOk result (λ parts. tree_parts_seen parts.items ≡ tables.plan_rel_parts root.now) }
{
    listed(alloc, [TreePart::Trees(2, TreesRef::RelRoot(roots(root)))])
}

// Plan
pub(crate) fn plan_parts<'a>(
    alloc: Global,
    plan: &'a PlanTree,
) -> Result<Vec<TreePart<'a>>, NoMemory>
    ensures { IfOk result (λ parts. tree_parts_seen parts.items ≡ tables.plan_parts plan.now) }
{
    listed(
        alloc,
        [
            TreePart::Leaf(messages(1, MessagesRef::ExtensionUri(plan.uris.as_slice()))),
            TreePart::Leaf(messages(
                2,
                MessagesRef::ExtensionDeclaration(plan.functions.as_slice()),
            )),
            TreePart::Trees(3, TreesRef::PlanRel(plan.roots.as_slice())),
        ],
    )
}
