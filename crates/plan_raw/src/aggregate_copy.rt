// Copies of the parts of the untyped tree's aggregate and sort relations.
ghost use Rattle.std.specs.Prelude.{◌≡◌, IfOk};

use crate::expr_copy::{copy_arguments, copy_exprs, copy_option};
use crate::{AggregateFunction, Grouping, Measure, SortField};
use plan_leaves::{CopyIn, Items, zip};
use std::alloc::Global;
use sub_types::NoMemory;

#[cycle(raw_copy)]
fn copy_grouping(alloc: Global, grouping: &Grouping) -> Result<Grouping, NoMemory>
    ensures { IfOk result (λ copy. copy ≡ grouping.now) }
{
    let (grouping_expressions, expression_references) = zip(
        copy_exprs(alloc, grouping.grouping_expressions.as_slice()),
        grouping.expression_references.copy_in(alloc),
    )?;
    Ok(Grouping {
        grouping_expressions,
        expression_references,
    })
}

#[cycle(raw_copy)]
pub(crate) fn copy_groupings(
    alloc: Global,
    groupings: &[Grouping],
) -> Result<Items<Grouping>, NoMemory>
    ensures { IfOk result (λ copies. copies ≡ groupings.now) }
{
    let mut copies = Vec::with_capacity(alloc, groupings.len())?;
    for grouping in groupings {
        copies.push(copy_grouping(alloc, grouping)?)?;
    }
    Ok(Items::from_vec(copies))
}

#[cycle(raw_copy)]
fn copy_sort(alloc: Global, sort: &SortField) -> Result<SortField, NoMemory>
    ensures { IfOk result (λ copy. copy ≡ sort.now) }
{
    Ok(SortField {
        expr: copy_option(alloc, &sort.expr)?,
        direction: sort.direction,
    })
}

#[cycle(raw_copy)]
pub(crate) fn copy_sorts(alloc: Global, sorts: &[SortField]) -> Result<Items<SortField>, NoMemory>
    ensures { IfOk result (λ copies. copies ≡ sorts.now) }
{
    let mut copies = Vec::with_capacity(alloc, sorts.len())?;
    for sort in sorts {
        copies.push(copy_sort(alloc, sort)?)?;
    }
    Ok(Items::from_vec(copies))
}

#[cycle(raw_copy)]
fn copy_function(alloc: Global, function: &AggregateFunction) -> Result<AggregateFunction, NoMemory>
    ensures { IfOk result (λ copy. copy ≡ function.now) }
{
    let called = zip(
        copy_arguments(alloc, function.arguments.as_slice()),
        function.options.copy_in(alloc),
    );
    let sorts = copy_sorts(alloc, function.sorts.as_slice());
    let (((arguments, options), sorts), output_type) = zip(
        zip(called, sorts),
        function.output_type.copy_in(alloc),
    )?;
    Ok(AggregateFunction {
        function_reference: function.function_reference,
        sorts,
        phase: function.phase,
        output_type,
        invocation: function.invocation,
        arguments,
        options,
    })
}

#[cycle(raw_copy)]
fn copy_called(
    alloc: Global,
    function: &Option<AggregateFunction>,
) -> Result<Option<AggregateFunction>, NoMemory>
    ensures { IfOk result (λ copy. copy ≡ function.now) }
{
    match function {
        None => Ok(None),
        Some(function) => Ok(Some(copy_function(alloc, function)?)),
    }
}

#[cycle(raw_copy)]
fn copy_measure(alloc: Global, measure: &Measure) -> Result<Measure, NoMemory>
    ensures { IfOk result (λ copy. copy ≡ measure.now) }
{
    let (function, filter) = zip(
        copy_called(alloc, &measure.measure),
        copy_option(alloc, &measure.filter),
    )?;
    Ok(Measure {
        measure: function,
        filter,
    })
}

#[cycle(raw_copy)]
pub(crate) fn copy_measures(alloc: Global, measures: &[Measure]) -> Result<Items<Measure>, NoMemory>
    ensures { IfOk result (λ copies. copies ≡ measures.now) }
{
    let mut copies = Vec::with_capacity(alloc, measures.len())?;
    for measure in measures {
        copies.push(copy_measure(alloc, measure)?)?;
    }
    Ok(Items::from_vec(copies))
}
