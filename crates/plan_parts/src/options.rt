// The options of a function call (Substrait `FunctionOption`).
ghost use Rattle.std.specs.Prelude.{◌≡◌, IfOk};
ghost use Rattle.pb_wire.specs.Payloads.{fields_of};
ghost use Rattle.plan_scan.specs.Table.{HoldsMessage};
ghost use Rattle.plan_parts.specs.Words.{parts};
ghost use Rattle.plan_parts.specs.Parts.{option_of};

use plan_leaves::{FunctionOption, Items};
use plan_scan::{Message, Shape, field};
use std::alloc::Global;
use sub_types::NoMemory;

/// The options in a field of a message.
pub fn options_at(
    alloc: Global,
    message: &Message<'_>,
    number: u32,
) -> Result<Items<FunctionOption>, NoMemory>
    requires { HoldsMessage message.now.shape number Shape.FunctionOption }
    ensures { IfOk result (λ options. options ≡ parts option_of number (fields_of message.now.bytes)) }
{
    let mut options = Vec::new(alloc);
    let mut left = message.children(number, Shape::FunctionOption);
    while let Some(option) = left.next() {
        options.push(function_option(alloc, &option)?)?;
    }
    Ok(Items::from_vec(options))
}

fn function_option(alloc: Global, message: &Message<'_>) -> Result<FunctionOption, NoMemory>
    ensures { IfOk result (λ option. option ≡ option_of (fields_of message.now.bytes)) }
{
    Ok(FunctionOption {
        name: message.byte_list(alloc, field::function_option::NAME)?,
        preference: Items::from_vec(message.texts(alloc, field::function_option::PREFERENCE)?),
    })
}
