// The messages of a readable plan.
ghost use Rattle.std.specs.Prelude.{◌≡◌};

use crate::blocks::Blocks;
use crate::children::Children;
use crate::choice::Choice;
use crate::flaw::Flaw;
use crate::merged::Merged;
use crate::oneof::{OneOf, is_last};
use crate::records::Records;
use crate::scan::{LEVELS, flaw_of};
use crate::shape::Shape;
use std::alloc::Global;
use std::marker::Model;
use sub_types::NoMemory;

/// A message of a readable plan: its shape, how many levels of messages may lie below it, and its payloads one after the
/// other, which aren't copied.
#[derive(Drop)]
pub struct Message<'a> {
    pub(crate) shape: Shape,
    below: u32,
    first: &'a [u8],
    later: &'a [&'a [u8]],
    // The payloads of the fields of lower numbers, a list each, or no list.
    index: &'a [Vec<&'a [u8]>],
}

impl<'a> Model for Message<'a> {
    ghost use Rattle.std.specs.Prelude.{◌≡◌, suc, ◌∷◌, true};
    ghost use Rattle.std.specs.List.{concat, list_all};
    ghost use Rattle.plan_scan.specs.Scanned.{Scanned, is_readable};
    ghost use Rattle.plan_scan.specs.Pieces.{pieces_of};
    ghost use Rattle.plan_scan.specs.Index.{IsIndex};
    ghost use Rattle.pb_wire.specs.Payloads.{fields_of};

    ghost Value = { Scanned };

    ghost view = { λ m. record { shape = m.shape; below = m.below; bytes = concat (m.first.now ∷ pieces_of m.later.now) } };

    ghost invariant = { λ m. (list_all (is_readable (suc m.below) m.shape) (m.first.now ∷ pieces_of m.later.now) ≡ true) × IsIndex m.index.now (fields_of (concat (m.first.now ∷ pieces_of m.later.now))) };
}

impl<'a> Message<'a> {
    ghost use Rattle.std.specs.Prelude.{◌≡◌, ◌+◌, suc, ◌∷◌, true, None, Some, IfOk, IfErr, IfSome};
    ghost use Rattle.std.specs.List.{concat, list_all};
    ghost use Rattle.std.specs.Option.{option_map};
    ghost use Rattle.pb_wire.specs.Payloads.{fields_of, blocks, merged_message, chosen_member};
    ghost use Rattle.plan_scan.specs.Scanned.{is_readable};
    ghost use Rattle.plan_scan.specs.Pieces.{pieces_of, pieces_found};
    ghost use Rattle.plan_scan.specs.Index.{IsIndex};
    ghost use Rattle.plan_scan.specs.Table.{HoldsMessage};
    ghost use Rattle.plan_scan.specs.Flaw.{flaw};
    ghost use Rattle.plan_scan.specs.Member.{is_member, owner};
    ghost use Rattle.plan_scan.specs.Choice.{is_of_messages};

    /// The plan, or the first flaw of its bytes.
    pub fn plan(bytes: &'a [u8]) -> Result<Message<'a>, Flaw>
        ensures readable { IfOk result (λ plan. flaw bytes.entry.now ≡ None) }
        ensures plan { IfOk result (λ plan. plan ≡ record { shape = Shape.Plan; below = 99; bytes = bytes.entry.now }) }
        ensures flaw { IfErr result (λ found. flaw bytes.entry.now ≡ Some found) }
    {
        match flaw_of(bytes) {
            Some(flaw) => Err(flaw),
            None => Ok(Message {
                shape: Shape::Plan,
                below: LEVELS - 1,
                first: bytes,
                later: &[],
                index: &[],
            }),
        }
    }

    /// The message of these pieces.
    pub(crate) fn of_pieces(
        shape: Shape,
        below: u32,
        first: &'a [u8],
        later: &'a [&'a [u8]],
    ) -> Message<'a>
        requires { list_all (is_readable (suc below) shape) (first.now ∷ pieces_of later.now) ≡ true }
        ensures { result ≡ record { shape = shape; below = below; bytes = concat (first.entry.now ∷ pieces_of later.entry.now) } }
    {
        Message::indexed(shape, below, first, later, &[])
    }

    /// The message of these pieces, with an index.
    pub(crate) fn indexed(
        shape: Shape,
        below: u32,
        first: &'a [u8],
        later: &'a [&'a [u8]],
        index: &'a [Vec<&'a [u8]>],
    ) -> Message<'a>
        requires readable { list_all (is_readable (suc below) shape) (first.now ∷ pieces_of later.now) ≡ true }
        requires index { IsIndex index.now (fields_of (concat (first.now ∷ pieces_of later.now))) }
        ensures { result ≡ record { shape = shape; below = below; bytes = concat (first.entry.now ∷ pieces_of later.entry.now) } }
    {
        Message {
            shape,
            below,
            first,
            later,
            index,
        }
    }

    /// The records of the message.
    pub(crate) fn records(&self) -> Records<'a, 'a>
        ensures { result ≡ self.now.bytes }
    {
        Records::new(self.first, self.later)
    }

    /// The payloads of a field of texts, bytes or messages.
    pub(crate) fn blocks(&self, number: u32) -> Blocks<'a>
        ensures { result ≡ blocks number (fields_of self.now.bytes) }
    {
        match self.known(number) {
            Some(known) => Blocks::of(known),
            None => Blocks::new(self.records(), number),
        }
    }

    // The payloads of a field, where the message has an index and the field is in it.
    fn known(&self, number: u32) -> Option<&'a [&'a [u8]]>
        ensures { IfSome result (λ known. pieces_of known.now ≡ blocks number (fields_of self.now.bytes)) }
    {
        match self.index.get(number as usize) {
            Some(found) => Some(&found[..]),
            None => None,
        }
    }

    /// The message of a singular field, or `None` where it is absent.
    pub fn merged(
        &self,
        alloc: Global,
        number: u32,
        shape: Shape,
    ) -> Result<Option<Merged<'a>>, NoMemory>
        requires { HoldsMessage self.now.shape number shape }
        ensures bytes { IfOk result (λ found. option_map (λ child. child.bytes) found ≡ merged_message number (fields_of self.now.bytes)) }
        ensures shape { IfOk result (λ found. IfSome found (λ child. child.shape ≡ shape)) }
        ensures below { IfOk result (λ found. IfSome found (λ child. child.below + 1 ≡ self.now.below)) }
    {
        let above = self.below;
        let Some((first, own, known)) = self.pieces(alloc, number)? else {
            return Ok(None);
        };
        Ok(Some(Merged::new(alloc, shape, above - 1, first, own, known)?))
    }

    // The payloads of a field, or `None` where it is absent: the first, and then later ones that are known or else new ones.
    fn pieces(
        &self,
        alloc: Global,
        number: u32,
    ) -> Result<Option<(&'a [u8], Vec<&'a [u8]>, &'a [&'a [u8]])>, NoMemory>
        ensures { IfOk result (λ found. pieces_found found ≡ blocks number (fields_of self.now.bytes)) }
    {
        let mut more = Vec::new(alloc);
        if let Some(known) = self.known(number) {
            if known.is_empty() {
                return Ok(None);
            }
            let (_, later) = known.split_at(1);
            return Ok(Some((known[0], more, later)));
        }
        let mut blocks = Blocks::new(self.records(), number);
        let Some(first) = blocks.next() else {
            return Ok(None);
        };
        while let Some(block) = blocks.next() {
            more.push(block)?;
        }
        Ok(Some((first, more, &[])))
    }

    /// The messages of a repeated field.
    pub fn children(&self, number: u32, shape: Shape) -> Children<'a>
        requires { HoldsMessage self.now.shape number shape }
        ensures { result ≡ record { shape = shape; above = self.now.below; blocks = blocks number (fields_of self.now.bytes) } }
    {
        Children::new(self.blocks(number), shape, self.below)
    }

    /// The message of a singular field that is one oneof of messages, or `None` where it is absent.
    pub fn choice_at(
        &self,
        alloc: Global,
        number: u32,
        oneof: OneOf,
    ) -> Result<Option<Choice<'a>>, NoMemory>
        requires messages { is_of_messages oneof ≡ true }
        requires shape { HoldsMessage self.now.shape number (owner oneof) }
        ensures bytes { IfOk result (λ found. option_map (λ choice. choice.bytes) found ≡ merged_message number (fields_of self.now.bytes)) }
        ensures oneof { IfOk result (λ found. IfSome found (λ choice. choice.oneof ≡ oneof)) }
        ensures below { IfOk result (λ found. IfSome found (λ choice. choice.below + 1 ≡ self.now.below)) }
    {
        let above = self.below;
        let mut blocks = self.blocks(number);
        let Some(first) = blocks.next() else {
            return Ok(None);
        };
        Ok(Some(Choice::new(alloc, oneof, above - 1, first, blocks)?))
    }

    /// The message, where it is one oneof of messages.
    pub fn choice(&self, alloc: Global, oneof: OneOf) -> Result<Choice<'a>, NoMemory>
        requires messages { is_of_messages oneof ≡ true }
        requires shape { self.now.shape ≡ owner oneof }
        ensures { IfOk result (λ choice. choice ≡ record { oneof = oneof; below = self.now.below; bytes = self.now.bytes }) }
    {
        Choice::new(alloc, oneof, self.below, self.first, Blocks::of(self.later))
    }

    /// The winner of a oneof, or `None` where it has no member: its number, and a message of the same shape whose records
    /// are those since the last record of any other member. The winner is the field of that number there.
    pub fn oneof(&self, oneof: OneOf) -> Option<(u32, Message<'a>)>
        ensures member { option_map (λ won. record { number = won.0; records = fields_of won.1.bytes }) result ≡ chosen_member (is_member oneof) (fields_of self.now.bytes) }
        ensures shape { IfSome result (λ won. won.1.shape ≡ self.now.shape) }
        ensures below { IfSome result (λ won. won.1.below ≡ self.now.below) }
    {
        let (number, since, is_whole) = self.winner(oneof)?;
        if is_whole {
            return Some((number, self.again()));
        }
        let (first, later) = since.pieces();
        let won = Message::of_pieces(self.shape, self.below, first, later);
        Some((number, won))
    }

    // The same message.
    fn again(&self) -> Message<'a>
        ensures { result ≡ self.now }
    {
        Message {
            shape: self.shape,
            below: self.below,
            first: self.first,
            later: self.later,
            index: self.index,
        }
    }

    // The number of the last member of a oneof, and the records since the last record of any other member, in one pass; and
    // whether these are all records, as it knows where there is no other member.
    fn winner(&self, oneof: OneOf) -> Option<(u32, Records<'a, 'a>, bool)>
        ensures member { option_map (λ won. record { number = won.0; records = fields_of won.1 }) result ≡ chosen_member (is_member oneof) (fields_of self.now.bytes) }
        ensures whole { IfSome result (λ won. won.2 ≡ true → won.1 ≡ self.now.bytes) }
    {
        let mut last = None;
        let mut is_whole = true;
        let mut since = self.records();
        let mut behind = self.records();
        let mut records = self.records();
        while let Some(found) = records.next() {
            if oneof.has_member(&found) {
                if !is_last(last, found.number) {
                    is_whole = last.is_none();
                    since = behind.again();
                }
                last = Some(found.number);
                behind = records.again();
            }
        }
        match last {
            Some(number) => Some((number, since, is_whole)),
            None => None,
        }
    }
}
