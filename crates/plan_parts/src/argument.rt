// The arguments of function calls (Substrait `FunctionArgument`).
ghost use Rattle.std.specs.Prelude.{◌≡◌, IfOk};
ghost use Rattle.pb_wire.specs.Payloads.{fields_of};
ghost use Rattle.plan_scan.specs.Table.{HoldsMessage};
ghost use Rattle.plan_parts.specs.Shapes.{child, children};
ghost use Rattle.plan_parts.specs.Exprs.{argument_by, argument_member};
ghost use Rattle.plan_parts.specs.CanRead.{CanRead};
ghost use Rattle.plan_parts.specs.Reader.{reader};

use crate::at::expr_at;
use crate::deeper::Deeper;
use crate::types::type_at;
use plan_leaves::Items;
use plan_raw::FunctionArgument;
use plan_scan::{Message, OneOf, Shape, field};
use std::alloc::Global;
use sub_types::NoMemory;

/// The arguments in a field of a message.
pub fn arguments_at<D: Deeper>(
    alloc: Global,
    deeper: &D,
    message: &Message<'_>,
    number: u32,
) -> Result<Items<FunctionArgument>, NoMemory>
    requires shape { HoldsMessage message.now.shape number Shape.FunctionArgument }
    requires deeper { CanRead D.Deeper deeper.now message.now.below }
    ensures { IfOk result (λ arguments. arguments ≡ children (reader message.now.below) Shape.FunctionArgument number (fields_of message.now.bytes)) }
{
    let mut arguments = Vec::new(alloc);
    let mut left = message.children(number, Shape::FunctionArgument);
    while let Some(found) = left.next() {
        arguments.push(argument(alloc, deeper, &found)?)?;
    }
    Ok(Items::from_vec(arguments))
}

fn argument<D: Deeper>(
    alloc: Global,
    deeper: &D,
    message: &Message<'_>,
) -> Result<FunctionArgument, NoMemory>
    requires shape { message.now.shape ≡ Shape.FunctionArgument }
    requires deeper { CanRead D.Deeper deeper.now message.now.below }
    ensures { IfOk result (λ argument. argument ≡ argument_by (reader message.now.below) (fields_of message.now.bytes)) }
{
    match message.oneof(OneOf::ArgumentType) {
        None => Ok(FunctionArgument::Missing),
        Some((number, won)) => member(alloc, deeper, number, &won),
    }
}

fn member<D: Deeper>(
    alloc: Global,
    deeper: &D,
    number: u32,
    won: &Message<'_>,
) -> Result<FunctionArgument, NoMemory>
    requires shape { won.now.shape ≡ Shape.FunctionArgument }
    requires deeper { CanRead D.Deeper deeper.now won.now.below }
    ensures { IfOk result (λ argument. argument ≡ argument_member (reader won.now.below) number (fields_of won.now.bytes)) }
{
    match number {
        field::function_argument::ENUM => Ok(FunctionArgument::Enum(won.byte_list(
            alloc,
            field::function_argument::ENUM,
        )?)),
        field::function_argument::TYPE => match type_at(
            alloc,
            won,
            field::function_argument::TYPE,
        )? {
            None => Ok(FunctionArgument::Missing),
            Some(ty) => Ok(FunctionArgument::TypeArgument(ty)),
        },
        _ => match expr_at(alloc, deeper, won, field::function_argument::VALUE)? {
            None => Ok(FunctionArgument::Missing),
            Some(value) => Ok(FunctionArgument::Value(value)),
        },
    }
}
