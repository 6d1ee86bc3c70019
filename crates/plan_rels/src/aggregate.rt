// Aggregate relations (Substrait `AggregateRel`) and the fields of sorts (`SortField`).
ghost use Rattle.std.specs.Prelude.{◌≡◌, IfOk};
ghost use Rattle.pb_wire.specs.Payloads.{fields_of};
ghost use Rattle.plan_scan.specs.Table.{HoldsMessage};
ghost use Rattle.plan_parts.specs.Shapes.{child, children};
ghost use Rattle.plan_parts.specs.Rels.{grouping_by, sort_field_by, aggregate_function_by, measure_by, aggregate_by};
ghost use Rattle.plan_parts.specs.CanRead.{CanRead};
ghost use Rattle.plan_parts.specs.Reader.{reader};

use plan_leaves::{Items, zip};
use plan_parts::{Deeper, arguments_at, common_at, expr_at, exprs_at, options_at, rel_at, type_at};
use plan_raw::{AggregateFunction, Grouping, Measure, RawRel, SortField};
use plan_scan::{Message, Shape, field};
use std::alloc::Global;
use sub_types::NoMemory;

/// An `AggregateRel`.
pub(crate) fn aggregate<D: Deeper>(
    alloc: Global,
    deeper: &D,
    message: &Message<'_>,
) -> Result<RawRel, NoMemory>
    requires shape { message.now.shape ≡ Shape.AggregateRel }
    requires deeper { CanRead D.Deeper deeper.now message.now.below }
    ensures { IfOk result (λ rel. rel ≡ aggregate_by (reader message.now.below) (fields_of message.now.bytes)) }
{
    let lists = zip(
        groupings_at(alloc, deeper, message, field::aggregate_rel::GROUPINGS),
        measures_at(alloc, deeper, message, field::aggregate_rel::MEASURES),
    );
    let ((common, input), ((groupings, measures), grouping_expressions)) = zip(
        zip(
            common_at(alloc, message),
            rel_at(alloc, deeper, message, field::aggregate_rel::INPUT),
        ),
        zip(
            lists,
            exprs_at(
                alloc,
                deeper,
                message,
                field::aggregate_rel::GROUPING_EXPRESSIONS,
            ),
        ),
    )?;
    Ok(RawRel::Aggregate {
        common,
        input,
        groupings,
        measures,
        grouping_expressions,
    })
}

fn groupings_at<D: Deeper>(
    alloc: Global,
    deeper: &D,
    message: &Message<'_>,
    number: u32,
) -> Result<Items<Grouping>, NoMemory>
    requires shape { HoldsMessage message.now.shape number Shape.Grouping }
    requires deeper { CanRead D.Deeper deeper.now message.now.below }
    ensures { IfOk result (λ groupings. groupings ≡ children (reader message.now.below) Shape.Grouping number (fields_of message.now.bytes)) }
{
    let mut groupings = Vec::new(alloc);
    let mut left = message.children(number, Shape::Grouping);
    while let Some(found) = left.next() {
        groupings.push(grouping(alloc, deeper, &found)?)?;
    }
    Ok(Items::from_vec(groupings))
}

fn grouping<D: Deeper>(
    alloc: Global,
    deeper: &D,
    message: &Message<'_>,
) -> Result<Grouping, NoMemory>
    requires shape { message.now.shape ≡ Shape.Grouping }
    requires deeper { CanRead D.Deeper deeper.now message.now.below }
    ensures { IfOk result (λ grouping. grouping ≡ grouping_by (reader message.now.below) (fields_of message.now.bytes)) }
{
    let (exprs, references) = zip(
        exprs_at(
            alloc,
            deeper,
            message,
            field::grouping::GROUPING_EXPRESSIONS,
        ),
        message.uint32s(alloc, field::grouping::EXPRESSION_REFERENCES),
    )?;
    Ok(Grouping {
        grouping_expressions: exprs,
        expression_references: Items::from_vec(references),
    })
}

fn measures_at<D: Deeper>(
    alloc: Global,
    deeper: &D,
    message: &Message<'_>,
    number: u32,
) -> Result<Items<Measure>, NoMemory>
    requires shape { HoldsMessage message.now.shape number Shape.Measure }
    requires deeper { CanRead D.Deeper deeper.now message.now.below }
    ensures { IfOk result (λ measures. measures ≡ children (reader message.now.below) Shape.Measure number (fields_of message.now.bytes)) }
{
    let mut measures = Vec::new(alloc);
    let mut left = message.children(number, Shape::Measure);
    while let Some(found) = left.next() {
        measures.push(measure(alloc, deeper, &found)?)?;
    }
    Ok(Items::from_vec(measures))
}

fn measure<D: Deeper>(alloc: Global, deeper: &D, message: &Message<'_>) -> Result<Measure, NoMemory>
    requires shape { message.now.shape ≡ Shape.Measure }
    requires deeper { CanRead D.Deeper deeper.now message.now.below }
    ensures { IfOk result (λ measure. measure ≡ measure_by (reader message.now.below) (fields_of message.now.bytes)) }
{
    let (function, filter) = zip(
        function_at(alloc, deeper, message, field::measure::MEASURE),
        expr_at(alloc, deeper, message, field::measure::FILTER),
    )?;
    Ok(Measure {
        measure: function,
        filter,
    })
}

fn function_at<D: Deeper>(
    alloc: Global,
    deeper: &D,
    message: &Message<'_>,
    number: u32,
) -> Result<Option<AggregateFunction>, NoMemory>
    requires shape { HoldsMessage message.now.shape number Shape.AggregateFunction }
    requires deeper { CanRead D.Deeper deeper.now message.now.below }
    ensures { IfOk result (λ function. function ≡ child (reader message.now.below) Shape.AggregateFunction number (fields_of message.now.bytes)) }
{
    match message.merged(alloc, number, Shape::AggregateFunction)? {
        None => Ok(None),
        Some(found) => Ok(Some(aggregate_function(alloc, deeper, &found.message())?)),
    }
}

fn aggregate_function<D: Deeper>(
    alloc: Global,
    deeper: &D,
    message: &Message<'_>,
) -> Result<AggregateFunction, NoMemory>
    requires shape { message.now.shape ≡ Shape.AggregateFunction }
    requires deeper { CanRead D.Deeper deeper.now message.now.below }
    ensures { IfOk result (λ function. function ≡ aggregate_function_by (reader message.now.below) (fields_of message.now.bytes)) }
{
    let called = zip(
        arguments_at(alloc, deeper, message, field::aggregate_function::ARGUMENTS),
        options_at(alloc, message, field::aggregate_function::OPTIONS),
    );
    let ((sorts, output_type), (arguments, options)) = zip(
        zip(
            sort_fields_at(alloc, deeper, message, field::aggregate_function::SORTS),
            type_at(alloc, message, field::aggregate_function::OUTPUT_TYPE),
        ),
        called,
    )?;
    Ok(AggregateFunction {
        function_reference: message.uint32(field::aggregate_function::FUNCTION_REFERENCE),
        sorts,
        phase: message.uint32(field::aggregate_function::PHASE),
        output_type,
        invocation: message.uint32(field::aggregate_function::INVOCATION),
        arguments,
        options,
    })
}

/// The fields of a sort in a field of a message.
pub(crate) fn sort_fields_at<D: Deeper>(
    alloc: Global,
    deeper: &D,
    message: &Message<'_>,
    number: u32,
) -> Result<Items<SortField>, NoMemory>
    requires shape { HoldsMessage message.now.shape number Shape.SortField }
    requires deeper { CanRead D.Deeper deeper.now message.now.below }
    ensures { IfOk result (λ sorts. sorts ≡ children (reader message.now.below) Shape.SortField number (fields_of message.now.bytes)) }
{
    let mut sorts = Vec::new(alloc);
    let mut left = message.children(number, Shape::SortField);
    while let Some(found) = left.next() {
        sorts.push(sort_field(alloc, deeper, &found)?)?;
    }
    Ok(Items::from_vec(sorts))
}

fn sort_field<D: Deeper>(
    alloc: Global,
    deeper: &D,
    message: &Message<'_>,
) -> Result<SortField, NoMemory>
    requires shape { message.now.shape ≡ Shape.SortField }
    requires deeper { CanRead D.Deeper deeper.now message.now.below }
    ensures { IfOk result (λ sort. sort ≡ sort_field_by (reader message.now.below) (fields_of message.now.bytes)) }
{
    Ok(SortField {
        expr: expr_at(alloc, deeper, message, field::sort_field::EXPR)?,
        direction: message.uint32(field::sort_field::DIRECTION),
    })
}
