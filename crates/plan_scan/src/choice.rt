// A message that is one oneof of messages, such as a relation.
ghost use Rattle.std.specs.Prelude.{◌≡◌, IfOk};
ghost use Rattle.plan_scan.specs.Choice.{IsWonMessage, IsReadableWinner};

use crate::blocks::Blocks;
use crate::merged::Merged;
use crate::message::Message;
use crate::oneof::OneOf;
use crate::shape::Use;
use crate::table::use_of_field;
use crate::won::{Won, choose};
use std::alloc::Global;
use std::marker::Model;
use sub_types::NoMemory;

/// A message that is one oneof of messages, a `Rel` or an `Expression`, and its winner.
#[derive(Drop)]
pub struct Choice<'a> {
    oneof: OneOf,
    below: u32,
    // Its payloads, of which only the contracts speak.
    first: &'a [u8],
    later: Blocks<'a>,
    // The winner, and its message where the field of that number is named.
    number: Option<u32>,
    message: Option<Merged<'a>>,
}

impl<'a> Model for Choice<'a> {
    ghost use Rattle.std.specs.Prelude.{◌≡◌, ◌∷◌};
    ghost use Rattle.std.specs.List.{concat};
    ghost use Rattle.pb_wire.specs.Payloads.{fields_of, chosen_member};
    ghost use Rattle.plan_scan.specs.Member.{is_member};
    ghost use Rattle.plan_scan.specs.Choice.{Chosen, IsWonMessage, won_of};

    ghost Value = { Chosen };

    ghost view = { λ c. record { oneof = c.oneof; below = c.below; bytes = concat (c.first.now ∷ c.later) } };

    ghost invariant = { λ c. (c.number ≡ (won_of (chosen_member (is_member c.oneof) (fields_of (concat (c.first.now ∷ c.later))))).number)
        × IsWonMessage c.oneof c.below (won_of (chosen_member (is_member c.oneof) (fields_of (concat (c.first.now ∷ c.later))))) c.message };
}

impl<'a> Choice<'a> {
    ghost use Rattle.std.specs.Prelude.{◌≡◌, ◌∷◌, suc, true, IfOk};
    ghost use Rattle.std.specs.List.{concat, list_all};
    ghost use Rattle.std.specs.Option.{option_map, option_and_then};
    ghost use Rattle.pb_wire.specs.Payloads.{fields_of, chosen_member};
    ghost use Rattle.plan_scan.specs.Member.{is_member, owner};
    ghost use Rattle.plan_scan.specs.Scanned.{is_readable};
    ghost use Rattle.plan_scan.specs.Choice.{is_of_messages, IsWonMessage, won_of};

    /// The message of these payloads.
    pub(crate) fn new(
        alloc: Global,
        oneof: OneOf,
        below: u32,
        first: &'a [u8],
        later: Blocks<'a>,
    ) -> Result<Choice<'a>, NoMemory>
        requires messages { is_of_messages oneof ≡ true }
        requires readable { list_all (is_readable (suc below) (owner oneof)) (first.now ∷ later) ≡ true }
        ensures { IfOk result (λ choice. choice ≡ record { oneof = oneof; below = below; bytes = concat (first.entry.now ∷ later.entry) }) }
    {
        let won = choose(alloc, oneof, first, later.again())?;
        let number = won.number;
        let message = won_message(alloc, oneof, below, won)?;
        Ok(Choice {
            oneof,
            below,
            first,
            later,
            number,
            message,
        })
    }

    /// How many levels of messages may lie below it.
    pub fn below(&self) -> u32
        ensures { result ≡ self.now.below }
    {
        self.below
    }

    /// The winner, or `None` where no member is there: its number, and its message where the field of that number is named.
    pub fn winner(&self) -> Option<(u32, Option<Message<'_>>)>
        ensures number { option_map (λ won. won.0) result ≡ (won_of (chosen_member (is_member self.now.oneof) (fields_of self.now.bytes))).number }
        ensures message { IsWonMessage self.now.oneof self.now.below (won_of (chosen_member (is_member self.now.oneof) (fields_of self.now.bytes))) (option_and_then (λ won. won.1) result) }
    {
        let number = self.number?;
        match &self.message {
            None => Some((number, None)),
            Some(message) => Some((number, Some(message.message()))),
        }
    }
}

// The message of the winner, where its field is named.
fn won_message<'a>(
    alloc: Global,
    oneof: OneOf,
    below: u32,
    won: Won<'a>,
) -> Result<Option<Merged<'a>>, NoMemory>
    requires { IsReadableWinner oneof below won }
    ensures { IfOk result (λ message. IsWonMessage oneof below won.entry message) }
{
    let Some(number) = won.number else {
        return Ok(None);
    };
    let Use::Message(shape) = use_of_field(oneof.owner(), number) else {
        return Ok(None);
    };
    let Some(first) = won.first else {
        return Ok(None);
    };
    Ok(Some(Merged::new(alloc, shape, below - 1, first, won.more, &[])?))
}
