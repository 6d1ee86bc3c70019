// The expressions of one relation with the values of subqueries put in, numbered in the order in which they are checked.
ghost use Rattle.std.specs.Prelude.{◌≡◌, ◌+◌, IfOk, OnOk};
ghost use Rattle.std.specs.List.{sum_by};
ghost use Rattle.plan_denote.specs.Holes.{filled_expr, all_from, size_of_all, maybe_from, rows_from, source_from, size_of_source, keys_from, measure_from, size_of_measure, measures_from, set_measures_from};
ghost use Rattle.sub_query.specs.Known.{worths_at};
ghost use Rattle.sub_query.specs.Parts.{key_from, set_measure_from};

use crate::fill_expr::{fill_expr, fill_exprs, fill_maybe};
use crate::node_worths::NodeWorths;
use plan_leaves::{CopyIn, Items, zip};
use plan_typed::{Expr, SetMeasure, SortKey, Source, TypedMeasure};
use std::alloc::Global;
use sub_types::NoMemory;

/// The condition of a filter.
pub(crate) fn fill_condition(
    alloc: Global,
    condition: &Expr,
    worths: &NodeWorths,
) -> Result<Expr, NoMemory>
    ensures { IfOk result (λ made. made ≡ (filled_expr (worths_at worths.now) condition.now).at 0) }
{
    let mut next = 0;
    fill_expr(alloc, condition, worths, &mut next)
}

/// The expressions of a projection.
pub(crate) fn fill_columns(
    alloc: Global,
    exprs: &[Expr],
    worths: &NodeWorths,
) -> Result<Items<Expr>, NoMemory>
    ensures { IfOk result (λ made. made ≡ all_from (worths_at worths.now) 0 exprs.now) }
{
    let mut next = 0;
    fill_exprs(alloc, exprs, worths, &mut next)
}

/// The source of a read, and then its filter.
pub(crate) fn fill_read(
    alloc: Global,
    source: &Source,
    filter: &Option<Expr>,
    worths: &NodeWorths,
) -> Result<(Source, Option<Expr>), NoMemory>
    ensures source { IfOk result (λ made. made.0 ≡ source_from (worths_at worths.now) source.now) }
    ensures filter { IfOk result
        (λ made. made.1 ≡ maybe_from (worths_at worths.now) (size_of_source (worths_at worths.now) source.now) filter.now) }
{
    let mut next = 0;
    let source = fill_source(alloc, source, worths, &mut next);
    zip(source, fill_maybe(alloc, filter, worths, &mut next))
}

fn fill_source(
    alloc: Global,
    source: &Source,
    worths: &NodeWorths,
    next: &mut u64,
) -> Result<Source, NoMemory>
    requires { next.old ≡ 0 }
    ensures made { IfOk result (λ made. made ≡ source_from (worths_at worths.now) source.now) }
    ensures next { OnOk result (next.new ≡ size_of_source (worths_at worths.now) source.now) }
{
    match source {
        Source::Named(names) => Ok(Source::Named(names.copy_in(alloc)?)),
        Source::Rows(rows) => Ok(Source::Rows(fill_rows(alloc, rows.as_slice(), worths, next)?)),
    }
}

fn fill_rows(
    alloc: Global,
    rows: &[Items<Expr>],
    worths: &NodeWorths,
    next: &mut u64,
) -> Result<Items<Items<Expr>>, NoMemory>
    ensures made { IfOk result (λ made. made ≡ rows_from (worths_at worths.now) next.old rows.now) }
    ensures next { OnOk result (next.new ≡ next.old + sum_by (size_of_all (worths_at worths.now)) rows.now) }
{
    let mut made = Vec::with_capacity(alloc, rows.len())?;
    for row in rows {
        made.push(fill_exprs(alloc, row.as_slice(), worths, next)?)?;
    }
    Ok(Items::from_vec(made))
}

/// The keys of a sort.
pub(crate) fn fill_keys(
    alloc: Global,
    keys: &[SortKey],
    worths: &NodeWorths,
) -> Result<Items<SortKey>, NoMemory>
    ensures { IfOk result (λ made. made ≡ keys_from (worths_at worths.now) 0 keys.now) }
{
    let mut next = 0;
    let mut made = Vec::with_capacity(alloc, keys.len())?;
    for key in keys {
        made.push(fill_key(alloc, key, worths, &mut next)?)?;
    }
    Ok(Items::from_vec(made))
}

fn fill_key(
    alloc: Global,
    key: &SortKey,
    worths: &NodeWorths,
    next: &mut u64,
) -> Result<SortKey, NoMemory>
    ensures made { IfOk result (λ made. made ≡ key_from (worths_at worths.now) next.old key.now) }
    ensures next { OnOk result (next.new ≡ next.old + (filled_expr (worths_at worths.now) key.now.expr).size) }
{
    Ok(SortKey {
        expr: fill_expr(alloc, &key.expr, worths, next)?,
        descending: key.descending,
        nulls_first: key.nulls_first,
    })
}

/// The groups of an aggregate, and then its measures.
pub(crate) fn fill_aggregate(
    alloc: Global,
    groups: &[Expr],
    measures: &[TypedMeasure],
    worths: &NodeWorths,
) -> Result<(Items<Expr>, Items<TypedMeasure>), NoMemory>
    ensures groups { IfOk result (λ made. made.0 ≡ all_from (worths_at worths.now) 0 groups.now) }
    ensures measures { IfOk result
        (λ made. made.1 ≡ measures_from (worths_at worths.now) (size_of_all (worths_at worths.now) groups.now) measures.now) }
{
    let mut next = 0;
    let groups = fill_exprs(alloc, groups, worths, &mut next);
    zip(groups, fill_measures(alloc, measures, worths, &mut next))
}

fn fill_measures(
    alloc: Global,
    measures: &[TypedMeasure],
    worths: &NodeWorths,
    next: &mut u64,
) -> Result<Items<TypedMeasure>, NoMemory>
    ensures { IfOk result (λ made. made ≡ measures_from (worths_at worths.now) next.old measures.now) }
{
    let mut made = Vec::with_capacity(alloc, measures.len())?;
    for measure in measures {
        made.push(fill_measure(alloc, measure, worths, next)?)?;
    }
    Ok(Items::from_vec(made))
}

/// The groups of grouping sets, and then their measures.
pub(crate) fn fill_group_sets(
    alloc: Global,
    groups: &[Expr],
    measures: &[SetMeasure],
    worths: &NodeWorths,
) -> Result<(Items<Expr>, Items<SetMeasure>), NoMemory>
    ensures groups { IfOk result (λ made. made.0 ≡ all_from (worths_at worths.now) 0 groups.now) }
    ensures measures { IfOk result
        (λ made. made.1 ≡ set_measures_from (worths_at worths.now) (size_of_all (worths_at worths.now) groups.now) measures.now) }
{
    let mut next = 0;
    let groups = fill_exprs(alloc, groups, worths, &mut next);
    zip(
        groups,
        fill_set_measures(alloc, measures, worths, &mut next),
    )
}

fn fill_set_measures(
    alloc: Global,
    measures: &[SetMeasure],
    worths: &NodeWorths,
    next: &mut u64,
) -> Result<Items<SetMeasure>, NoMemory>
    ensures { IfOk result (λ made. made ≡ set_measures_from (worths_at worths.now) next.old measures.now) }
{
    let mut made = Vec::with_capacity(alloc, measures.len())?;
    for one in measures {
        made.push(fill_set_measure(alloc, one, worths, next)?)?;
    }
    Ok(Items::from_vec(made))
}

fn fill_set_measure(
    alloc: Global,
    one: &SetMeasure,
    worths: &NodeWorths,
    next: &mut u64,
) -> Result<SetMeasure, NoMemory>
    ensures made { IfOk result (λ made. made ≡ set_measure_from (worths_at worths.now) next.old one.now) }
    ensures next { OnOk result (next.new ≡ next.old + size_of_measure (worths_at worths.now) one.now.measure) }
{
    Ok(SetMeasure {
        measure: fill_measure(alloc, &one.measure, worths, next)?,
        distinct: one.distinct,
    })
}

/// The filter of a measure, and then its argument.
fn fill_measure(
    alloc: Global,
    measure: &TypedMeasure,
    worths: &NodeWorths,
    next: &mut u64,
) -> Result<TypedMeasure, NoMemory>
    ensures made { IfOk result (λ made. made ≡ measure_from (worths_at worths.now) next.old measure.now) }
    ensures next { OnOk result (next.new ≡ next.old + size_of_measure (worths_at worths.now) measure.now) }
{
    let filter = fill_maybe(alloc, &measure.filter, worths, next);
    let (filter, arg) = zip(filter, fill_maybe(alloc, &measure.arg, worths, next))?;
    Ok(TypedMeasure {
        func: measure.func,
        arg,
        filter,
        ty: measure.ty,
    })
}

/// The condition of a join, and then the filter of its rows.
pub(crate) fn fill_join(
    alloc: Global,
    on: &Expr,
    post: &Option<Expr>,
    worths: &NodeWorths,
) -> Result<(Expr, Option<Expr>), NoMemory>
    ensures on { IfOk result (λ made. made.0 ≡ (filled_expr (worths_at worths.now) on.now).at 0) }
    ensures post { IfOk result
        (λ made. made.1 ≡ maybe_from (worths_at worths.now) (filled_expr (worths_at worths.now) on.now).size post.now) }
{
    let mut next = 0;
    let on = fill_expr(alloc, on, worths, &mut next);
    zip(on, fill_maybe(alloc, post, worths, &mut next))
}
