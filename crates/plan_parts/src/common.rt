// What each relation has in field 1 (Substrait `RelCommon`).
ghost use Rattle.std.specs.Prelude.{◌≡◌, IfOk};
ghost use Rattle.pb_wire.specs.Payloads.{fields_of};
ghost use Rattle.plan_scan.specs.Table.{HoldsMessage};
ghost use Rattle.plan_parts.specs.Parts.{emit_of, common_member, common_of};
ghost use Rattle.plan_parts.specs.Rels.{common_in};
ghost use Rattle.plan_parts.specs.Reader.{plan_of};

use plan_leaves::{Items, RelCommon};
use plan_scan::{Message, OneOf, Shape, field};
use std::alloc::Global;
use sub_types::NoMemory;

/// The `RelCommon` of a relation, which is its field 1.
pub fn common_at(alloc: Global, message: &Message<'_>) -> Result<Option<RelCommon>, NoMemory>
    requires { HoldsMessage message.now.shape 1 Shape.RelCommon }
    ensures { IfOk result (λ common. common ≡ common_in (fields_of message.now.bytes)) }
{
    match message.merged(alloc, field::COMMON, Shape::RelCommon)? {
        None => Ok(None),
        Some(common) => Ok(Some(rel_common(alloc, &common.message())?)),
    }
}

fn rel_common(alloc: Global, message: &Message<'_>) -> Result<RelCommon, NoMemory>
    requires { message.now.shape ≡ Shape.RelCommon }
    ensures { IfOk result (λ common. common ≡ common_of (fields_of message.now.bytes)) }
{
    match message.oneof(OneOf::EmitKind) {
        None => Ok(RelCommon::Missing),
        Some((number, won)) => member(alloc, number, &won),
    }
}

fn member(alloc: Global, number: u32, won: &Message<'_>) -> Result<RelCommon, NoMemory>
    requires { won.now.shape ≡ Shape.RelCommon }
    ensures { IfOk result (λ common. common ≡ common_member number (fields_of won.now.bytes)) }
{
    if number == field::rel_common::DIRECT {
        return Ok(RelCommon::Direct);
    }
    match won.merged(alloc, field::rel_common::EMIT, Shape::Emit)? {
        None => Ok(RelCommon::Missing),
        Some(emit) => mapped(alloc, &emit.message()),
    }
}

fn mapped(alloc: Global, emit: &Message<'_>) -> Result<RelCommon, NoMemory>
    ensures { IfOk result (λ common. common ≡ emit_of (fields_of emit.now.bytes)) }
{
    Ok(RelCommon::Emit {
        output_mapping: Items::from_vec(emit.int32s(alloc, field::emit::OUTPUT_MAPPING)?),
    })
}
