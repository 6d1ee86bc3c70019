// Copies of the untyped tree's relations.
ghost use Rattle.std.specs.Prelude.{◌≡◌, IfOk};

use crate::aggregate_copy::{copy_groupings, copy_measures, copy_sorts};
use crate::expr_copy::{copy_boxed, copy_expr, copy_exprs};
use crate::source_copy::copy_source;
use crate::{RawCount, RawOffset, RawRel};
use plan_leaves::{Boxed, CopyIn, Items, zip};
use std::alloc::Global;
use sub_types::NoMemory;

#[cycle(raw_copy)]
fn copy_rel(alloc: Global, rel: &RawRel) -> Result<RawRel, NoMemory>
    ensures { IfOk result (λ copy. copy ≡ rel.now) }
{
    match rel {
        RawRel::Missing => Ok(RawRel::Missing),
        RawRel::Unknown { number } => Ok(RawRel::Unknown { number: *number }),
        RawRel::Read {
            common,
            base_schema,
            filter,
            projection,
            source,
            best_effort_filter,
        } => {
            let filters = zip(
                copy_boxed(alloc, filter),
                copy_boxed(alloc, best_effort_filter),
            );
            let columns = zip(base_schema.copy_in(alloc), projection.copy_in(alloc));
            let read = zip(common.copy_in(alloc), copy_source(alloc, source));
            let ((filters, columns), (common, source)) = zip(zip(filters, columns), read)?;
            let (filter, best_effort_filter) = filters;
            let (base_schema, projection) = columns;
            Ok(RawRel::Read {
                common,
                base_schema,
                filter,
                projection,
                source,
                best_effort_filter,
            })
        }
        RawRel::Filter {
            common,
            input,
            condition,
        } => {
            let (common, (input, condition)) = zip(
                common.copy_in(alloc),
                zip(copy_input(alloc, input), copy_boxed(alloc, condition)),
            )?;
            Ok(RawRel::Filter {
                common,
                input,
                condition,
            })
        }
        RawRel::Fetch {
            common,
            input,
            offset,
            count,
        } => {
            let ((common, input), (offset, count)) = zip(
                zip(common.copy_in(alloc), copy_input(alloc, input)),
                zip(copy_offset(alloc, offset), copy_count(alloc, count)),
            )?;
            Ok(RawRel::Fetch {
                common,
                input,
                offset,
                count,
            })
        }
        RawRel::Aggregate {
            common,
            input,
            groupings,
            measures,
            grouping_expressions,
        } => {
            let lists = zip(
                copy_groupings(alloc, groupings.as_slice()),
                copy_measures(alloc, measures.as_slice()),
            );
            let lists = zip(lists, copy_exprs(alloc, grouping_expressions.as_slice()));
            let ((common, input), ((groupings, measures), grouping_expressions)) = zip(
                zip(common.copy_in(alloc), copy_input(alloc, input)),
                lists,
            )?;
            Ok(RawRel::Aggregate {
                common,
                input,
                groupings,
                measures,
                grouping_expressions,
            })
        }
        RawRel::Sort {
            common,
            input,
            sorts,
        } => {
            let ((common, input), sorts) = zip(
                zip(common.copy_in(alloc), copy_input(alloc, input)),
                copy_sorts(alloc, sorts.as_slice()),
            )?;
            Ok(RawRel::Sort {
                common,
                input,
                sorts,
            })
        }
        RawRel::Join {
            common,
            left,
            right,
            expression,
            post_join_filter,
            type_,
        } => {
            let inputs = zip(copy_input(alloc, left), copy_input(alloc, right));
            let filters = zip(
                copy_boxed(alloc, expression),
                copy_boxed(alloc, post_join_filter),
            );
            let ((common, (left, right)), (expression, post_join_filter)) = zip(
                zip(common.copy_in(alloc), inputs),
                filters,
            )?;
            Ok(RawRel::Join {
                common,
                left,
                right,
                expression,
                post_join_filter,
                type_: *type_,
            })
        }
        RawRel::Project {
            common,
            input,
            expressions,
        } => {
            let ((common, input), expressions) = zip(
                zip(common.copy_in(alloc), copy_input(alloc, input)),
                copy_exprs(alloc, expressions.as_slice()),
            )?;
            Ok(RawRel::Project {
                common,
                input,
                expressions,
            })
        }
        RawRel::Set { common, inputs, op } => {
            let (common, inputs) = zip(common.copy_in(alloc), copy_rels(alloc, inputs.as_slice()))?;
            Ok(RawRel::Set {
                common,
                inputs,
                op: *op,
            })
        }
        RawRel::Cross {
            common,
            left,
            right,
        } => {
            let (common, (left, right)) = zip(
                common.copy_in(alloc),
                zip(copy_input(alloc, left), copy_input(alloc, right)),
            )?;
            Ok(RawRel::Cross {
                common,
                left,
                right,
            })
        }
    }
}

#[cycle(raw_copy)]
pub(crate) fn copy_input(
    alloc: Global,
    rel: &Option<Boxed<RawRel>>,
) -> Result<Option<Boxed<RawRel>>, NoMemory>
    ensures { IfOk result (λ copy. copy ≡ rel.now) }
{
    match rel {
        None => Ok(None),
        Some(rel) => Ok(Some(Boxed::new(alloc, copy_rel(alloc, rel.get())?)?)),
    }
}

#[cycle(raw_copy)]
fn copy_rels(alloc: Global, rels: &[RawRel]) -> Result<Items<RawRel>, NoMemory>
    ensures { IfOk result (λ copies. copies ≡ rels.now) }
{
    let mut copies = Vec::with_capacity(alloc, rels.len())?;
    for rel in rels {
        copies.push(copy_rel(alloc, rel)?)?;
    }
    Ok(Items::from_vec(copies))
}

#[cycle(raw_copy)]
fn copy_offset(alloc: Global, offset: &RawOffset) -> Result<RawOffset, NoMemory>
    ensures { IfOk result (λ copy. copy ≡ offset.now) }
{
    match offset {
        RawOffset::Missing => Ok(RawOffset::Missing),
        RawOffset::Offset(offset) => Ok(RawOffset::Offset(*offset)),
        RawOffset::OffsetExpr(expr) => Ok(RawOffset::OffsetExpr(Boxed::new(
            alloc,
            copy_expr(alloc, expr.get())?,
        )?)),
    }
}

#[cycle(raw_copy)]
fn copy_count(alloc: Global, count: &RawCount) -> Result<RawCount, NoMemory>
    ensures { IfOk result (λ copy. copy ≡ count.now) }
{
    match count {
        RawCount::Missing => Ok(RawCount::Missing),
        RawCount::Count(count) => Ok(RawCount::Count(*count)),
        RawCount::CountExpr(expr) => Ok(RawCount::CountExpr(Boxed::new(
            alloc,
            copy_expr(alloc, expr.get())?,
        )?)),
    }
}
