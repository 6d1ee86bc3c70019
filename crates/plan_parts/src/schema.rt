// The schema of a table (Substrait `NamedStruct`).
ghost use Rattle.std.specs.Prelude.{◌≡◌, IfOk};
ghost use Rattle.pb_wire.specs.Payloads.{fields_of};
ghost use Rattle.plan_scan.specs.Table.{HoldsMessage};
ghost use Rattle.plan_parts.specs.Shapes.{child};
ghost use Rattle.plan_parts.specs.Rels.{named_struct_by};
ghost use Rattle.plan_parts.specs.Reader.{reader};

use crate::types::struct_type_at;
use plan_leaves::{Items, NamedStruct};
use plan_scan::{Message, Shape, field};
use std::alloc::Global;
use sub_types::NoMemory;

/// The schema in a field of a message, or `None` where it is absent.
pub fn named_struct_at(
    alloc: Global,
    message: &Message<'_>,
    number: u32,
) -> Result<Option<NamedStruct>, NoMemory>
    requires { HoldsMessage message.now.shape number Shape.NamedStruct }
    ensures { IfOk result (λ schema. schema ≡ child (reader message.now.below) Shape.NamedStruct number (fields_of message.now.bytes)) }
{
    match message.merged(alloc, number, Shape::NamedStruct)? {
        None => Ok(None),
        Some(schema) => Ok(Some(named_struct(alloc, &schema.message())?)),
    }
}

fn named_struct(alloc: Global, message: &Message<'_>) -> Result<NamedStruct, NoMemory>
    requires { message.now.shape ≡ Shape.NamedStruct }
    ensures { IfOk result (λ schema. schema ≡ named_struct_by (reader message.now.below) (fields_of message.now.bytes)) }
{
    Ok(NamedStruct {
        names: Items::from_vec(message.texts(alloc, field::named_struct::NAMES)?),
        struct_: struct_type_at(alloc, message, field::named_struct::STRUCT)?,
    })
}
