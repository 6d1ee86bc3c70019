// References to columns (Substrait `Expression.FieldReference`).
ghost use Rattle.std.specs.Prelude.{◌≡◌, IfOk};
ghost use Rattle.pb_wire.specs.Payloads.{fields_of};
ghost use Rattle.plan_scan.specs.Table.{HoldsMessage};
ghost use Rattle.plan_parts.specs.Words.{part};
ghost use Rattle.plan_parts.specs.Parts.{struct_field_of, segment_of, selection_of};

use plan_leaves::{ReferenceSegment, StructField};
use plan_raw::RawExpr;
use plan_scan::{Message, Shape, field};
use std::alloc::Global;
use sub_types::NoMemory;

/// A `FieldReference`, as an expression.
pub fn selection(alloc: Global, message: &Message<'_>) -> Result<RawExpr, NoMemory>
    requires { message.now.shape ≡ Shape.FieldReference }
    ensures { IfOk result (λ expr. expr ≡ selection_of (fields_of message.now.bytes)) }
{
    Ok(RawExpr::Selection {
        direct_reference: segment_at(alloc, message)?,
        root_reference: message.has(field::field_reference::ROOT_REFERENCE),
        other: message.has(field::field_reference::MASKED_REFERENCE)
            || message.has(field::field_reference::EXPRESSION)
            || message.has(field::field_reference::OUTER_REFERENCE),
    })
}

fn segment_at(alloc: Global, message: &Message<'_>) -> Result<Option<ReferenceSegment>, NoMemory>
    requires { message.now.shape ≡ Shape.FieldReference }
    ensures { IfOk result (λ segment. segment ≡ part segment_of 1 (fields_of message.now.bytes)) }
{
    match message.merged(
        alloc,
        field::field_reference::DIRECT_REFERENCE,
        Shape::ReferenceSegment,
    )? {
        None => Ok(None),
        Some(segment) => Ok(Some(reference_segment(alloc, &segment.message())?)),
    }
}

fn reference_segment(alloc: Global, message: &Message<'_>) -> Result<ReferenceSegment, NoMemory>
    requires { message.now.shape ≡ Shape.ReferenceSegment }
    ensures { IfOk result (λ segment. segment ≡ segment_of (fields_of message.now.bytes)) }
{
    match message.merged(
        alloc,
        field::reference_segment::STRUCT_FIELD,
        Shape::StructField,
    )? {
        None => Ok(ReferenceSegment { struct_field: None }),
        Some(field) => Ok(ReferenceSegment {
            struct_field: Some(struct_field(&field.message())),
        }),
    }
}

fn struct_field(message: &Message<'_>) -> StructField
    ensures { result ≡ struct_field_of (fields_of message.now.bytes) }
{
    StructField {
        field: message.int32(field::struct_field::FIELD),
        child: message.has(field::struct_field::CHILD),
    }
}
