// The projection of a read relation (Substrait `Expression.MaskExpression`).
ghost use Rattle.std.specs.Prelude.{◌≡◌, IfOk};
ghost use Rattle.pb_wire.specs.Payloads.{fields_of};
ghost use Rattle.plan_scan.specs.Table.{HoldsMessage};
ghost use Rattle.plan_parts.specs.Words.{part, parts};
ghost use Rattle.plan_parts.specs.Parts.{mask_item_of, mask_struct_of, mask_of};

use plan_leaves::{Items, MaskExpression, MaskItem, MaskStruct};
use plan_scan::{Message, Shape, field};
use std::alloc::Global;
use sub_types::NoMemory;

/// The mask in a field of a message, or `None` where it is absent.
pub fn mask_at(
    alloc: Global,
    message: &Message<'_>,
    number: u32,
) -> Result<Option<MaskExpression>, NoMemory>
    requires { HoldsMessage message.now.shape number Shape.MaskExpression }
    ensures { IfOk result (λ mask. mask ≡ part mask_of number (fields_of message.now.bytes)) }
{
    match message.merged(alloc, number, Shape::MaskExpression)? {
        None => Ok(None),
        Some(mask) => Ok(Some(mask_expression(alloc, &mask.message())?)),
    }
}

fn mask_expression(alloc: Global, message: &Message<'_>) -> Result<MaskExpression, NoMemory>
    requires { message.now.shape ≡ Shape.MaskExpression }
    ensures { IfOk result (λ mask. mask ≡ mask_of (fields_of message.now.bytes)) }
{
    match message.merged(alloc, field::mask_expression::SELECT, Shape::StructSelect)? {
        None => Ok(MaskExpression { select: None }),
        Some(select) => Ok(MaskExpression {
            select: Some(mask_struct(alloc, &select.message())?),
        }),
    }
}

fn mask_struct(alloc: Global, message: &Message<'_>) -> Result<MaskStruct, NoMemory>
    requires { message.now.shape ≡ Shape.StructSelect }
    ensures { IfOk result (λ mask. mask ≡ mask_struct_of (fields_of message.now.bytes)) }
{
    let mut items = Vec::new(alloc);
    let mut left = message.children(field::struct_select::STRUCT_ITEMS, Shape::StructItem);
    while let Some(item) = left.next() {
        items.push(mask_item(&item))?;
    }
    Ok(MaskStruct {
        struct_items: Items::from_vec(items),
    })
}

fn mask_item(message: &Message<'_>) -> MaskItem
    ensures { result ≡ mask_item_of (fields_of message.now.bytes) }
{
    MaskItem {
        field: message.int32(field::struct_item::FIELD),
        child: message.has(field::struct_item::CHILD),
    }
}
