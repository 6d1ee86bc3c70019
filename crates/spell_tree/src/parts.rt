// What a message holds, field by field.
ghost use Rattle.std.specs.Prelude.{◌≡◌, ◌<◌, [], IfOk, get_or, length, map};
ghost use Rattle.plan_spell.specs.Parts.{parts_of};
ghost use Rattle.spell_tree.specs.Seen.{tree_parts_seen, trees_seen};

use crate::part::{TreePart, TreesRef};
use crate::{exprs, rels};
use plan_leaves::Items;
use std::alloc::Global;
use sub_types::NoMemory;

// The item at a place.
fn item_in<T>(items: &Items<T>, at: usize) -> &T
    requires { at < length items.now }
    ensures { result.now ≡ get_or items.now at result.now }
{
    &items.as_slice()[at]
}

/// The fields of one of the messages, in the order in which they are written.
pub(crate) fn parts_at<'a>(
    alloc: Global,
    trees: TreesRef<'a>,
    at: usize,
) -> Result<Vec<TreePart<'a>>, NoMemory>
    requires { at < length (trees_seen trees).nodes }
    ensures { IfOk result (λ parts. tree_parts_seen parts.items ≡ get_or (map (parts_of (trees_seen trees.entry).shape) (trees_seen trees.entry).nodes) at []) }
{
    match trees {
        TreesRef::Plan(plan) => rels::plan_parts(alloc, plan),
        TreesRef::PlanRel(roots) => rels::plan_rel_parts(alloc, &roots[at]),
        TreesRef::RelRoot(roots) => rels::root_parts(alloc, &roots[at]),
        TreesRef::Rels(role, rels) => rels::parts_as(alloc, role, &rels[at]),
        TreesRef::VirtualTable(tables) => rels::virtual_table_parts(alloc, &tables[at]),
        TreesRef::ExpressionRow(rows) => rels::expression_row_parts(alloc, &rows[at]),
        TreesRef::Grouping(groupings) => rels::grouping_parts(alloc, item_in(groupings, at)),
        TreesRef::Measure(measures) => rels::measure_parts(alloc, item_in(measures, at)),
        TreesRef::AggregateFunction(functions) => rels::aggregate_function_parts(
            alloc,
            &functions[at],
        ),
        TreesRef::SortField(sorts) => rels::sort_field_parts(alloc, item_in(sorts, at)),
        TreesRef::Exprs(role, exprs) => exprs::parts_as(alloc, role, &exprs[at]),
        TreesRef::FunctionArgument(arguments) => exprs::argument_parts(
            alloc,
            item_in(arguments, at),
        ),
        TreesRef::IfClause(clauses) => exprs::if_clause_parts(alloc, item_in(clauses, at)),
        TreesRef::IfValue(values) => exprs::if_value_parts(alloc, item_in(values, at)),
    }
}
