// How many relations a plan's tree holds, counted up to a limit: no relation is opened once the limit is reached.
ghost use Rattle.std.specs.Prelude.{◌≡◌, ◌+◌, ◌≤◌, min, sum_by};
ghost use Rattle.std.specs.Option.{option_map};
ghost use Rattle.plan_tree.specs.Numbering as numbering;

use crate::count_exprs::{arguments_from, boxed_from, expr_from, exprs_from, option_from};
use plan_leaves::Boxed;
use plan_raw::{
    AggregateFunction, ExprRow, Grouping, Measure, RawCount, RawOffset, RawRel, RawSource,
    SortField,
};

/// The number of relations that a relation holds, itself among them, or the limit where there are more.
pub fn count_relations(rel: &RawRel, limit: u32) -> u32
    ensures { result ≡ min limit (numbering.relation_count rel.now) }
{
    rel_from(0, limit, rel)
}

#[cycle(count)]
fn rel_from(seen: u32, limit: u32, rel: &RawRel) -> u32
    requires { seen ≤ limit }
    ensures { result ≡ min limit (seen + numbering.relation_count rel.now) }
{
    if seen == limit {
        return limit;
    }
    let seen = seen + 1;
    match rel {
        RawRel::Missing | RawRel::Unknown { .. } => seen,
        RawRel::Read { filter, source, .. } => {
            let seen = source_from(seen, limit, source);
            boxed_from(seen, limit, filter)
        }
        RawRel::Filter {
            input,
            condition,
            ..
        } => {
            let seen = input_from(seen, limit, input);
            boxed_from(seen, limit, condition)
        }
        RawRel::Fetch {
            input,
            offset,
            count,
            ..
        } => {
            let seen = input_from(seen, limit, input);
            let seen = offset_from(seen, limit, offset);
            count_from(seen, limit, count)
        }
        RawRel::Aggregate {
            input,
            groupings,
            measures,
            grouping_expressions,
            ..
        } => {
            let seen = input_from(seen, limit, input);
            let seen = groupings_from(seen, limit, groupings.as_slice());
            let seen = exprs_from(seen, limit, grouping_expressions.as_slice());
            measures_from(seen, limit, measures.as_slice())
        }
        RawRel::Sort { input, sorts, .. } => {
            let seen = input_from(seen, limit, input);
            sorts_from(seen, limit, sorts.as_slice())
        }
        RawRel::Join {
            left,
            right,
            expression,
            post_join_filter,
            ..
        } => {
            let seen = input_from(seen, limit, left);
            let seen = input_from(seen, limit, right);
            let seen = boxed_from(seen, limit, expression);
            boxed_from(seen, limit, post_join_filter)
        }
        RawRel::Project {
            input,
            expressions,
            ..
        } => {
            let seen = input_from(seen, limit, input);
            exprs_from(seen, limit, expressions.as_slice())
        }
        RawRel::Set { inputs, .. } => rels_from(seen, limit, inputs.as_slice()),
        RawRel::Cross { left, right, .. } => {
            let seen = input_from(seen, limit, left);
            input_from(seen, limit, right)
        }
    }
}

#[cycle(count)]
pub(crate) fn input_from(seen: u32, limit: u32, rel: &Option<Boxed<RawRel>>) -> u32
    requires { seen ≤ limit }
    ensures { result ≡ min limit (seen + numbering.held (option_map numbering.relation_count rel.now)) }
{
    match rel {
        None => seen,
        Some(rel) => rel_from(seen, limit, rel.get()),
    }
}

#[cycle(count)]
fn rels_from(seen: u32, limit: u32, rels: &[RawRel]) -> u32
    requires { seen ≤ limit }
    ensures { result ≡ min limit (seen + sum_by numbering.relation_count rels.now) }
{
    let mut seen = seen;
    for rel in rels {
        seen = rel_from(seen, limit, rel);
    }
    seen
}

#[cycle(count)]
fn source_from(seen: u32, limit: u32, source: &RawSource) -> u32
    requires { seen ≤ limit }
    ensures { result ≡ min limit (seen + numbering.count_in_source source.now) }
{
    match source {
        RawSource::Missing | RawSource::LocalFiles(_) | RawSource::NamedTable(_) => seen,
        RawSource::VirtualTable(table) => rows_from(seen, limit, table.expressions.as_slice()),
    }
}

#[cycle(count)]
fn rows_from(seen: u32, limit: u32, rows: &[ExprRow]) -> u32
    requires { seen ≤ limit }
    ensures { result ≡ min limit (seen + sum_by numbering.count_in_row rows.now) }
{
    let mut seen = seen;
    for row in rows {
        seen = exprs_from(seen, limit, row.fields.as_slice());
    }
    seen
}

#[cycle(count)]
fn offset_from(seen: u32, limit: u32, offset: &RawOffset) -> u32
    requires { seen ≤ limit }
    ensures { result ≡ min limit (seen + numbering.count_in_offset offset.now) }
{
    match offset {
        RawOffset::Missing | RawOffset::Offset(_) => seen,
        RawOffset::OffsetExpr(expr) => expr_from(seen, limit, expr.get()),
    }
}

#[cycle(count)]
fn count_from(seen: u32, limit: u32, count: &RawCount) -> u32
    requires { seen ≤ limit }
    ensures { result ≡ min limit (seen + numbering.count_in_count count.now) }
{
    match count {
        RawCount::Missing | RawCount::Count(_) => seen,
        RawCount::CountExpr(expr) => expr_from(seen, limit, expr.get()),
    }
}

#[cycle(count)]
fn groupings_from(seen: u32, limit: u32, groupings: &[Grouping]) -> u32
    requires { seen ≤ limit }
    ensures { result ≡ min limit (seen + sum_by numbering.count_in_grouping groupings.now) }
{
    let mut seen = seen;
    for grouping in groupings {
        seen = exprs_from(seen, limit, grouping.grouping_expressions.as_slice());
    }
    seen
}

#[cycle(count)]
fn sorts_from(seen: u32, limit: u32, sorts: &[SortField]) -> u32
    requires { seen ≤ limit }
    ensures { result ≡ min limit (seen + sum_by numbering.count_in_sort sorts.now) }
{
    let mut seen = seen;
    for sort in sorts {
        seen = option_from(seen, limit, &sort.expr);
    }
    seen
}

#[cycle(count)]
fn measures_from(seen: u32, limit: u32, measures: &[Measure]) -> u32
    requires { seen ≤ limit }
    ensures { result ≡ min limit (seen + sum_by numbering.count_in_measure measures.now) }
{
    let mut seen = seen;
    for measure in measures {
        seen = measure_from(seen, limit, measure);
    }
    seen
}

#[cycle(count)]
fn measure_from(seen: u32, limit: u32, measure: &Measure) -> u32
    requires { seen ≤ limit }
    ensures { result ≡ min limit (seen + numbering.count_in_measure measure.now) }
{
    let seen = option_from(seen, limit, &measure.filter);
    match &measure.measure {
        None => seen,
        Some(function) => function_from(seen, limit, function),
    }
}

#[cycle(count)]
fn function_from(seen: u32, limit: u32, function: &AggregateFunction) -> u32
    requires { seen ≤ limit }
    ensures { result ≡ min limit (seen + numbering.count_in_function function.now) }
{
    let seen = sorts_from(seen, limit, function.sorts.as_slice());
    arguments_from(seen, limit, function.arguments.as_slice())
}
