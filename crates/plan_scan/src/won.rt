// The winner of a oneof of messages, found while the records are read.
ghost use Rattle.std.specs.Prelude.{◌≡◌, ◌∷◌, true, IfOk};
ghost use Rattle.std.specs.List.{concat, list_all};
ghost use Rattle.pb_wire.specs.Payloads.{fields_of, is_whole};
ghost use Rattle.plan_scan.specs.Member.{is_member};
ghost use Rattle.plan_scan.specs.Choice.{nothing_won, won_over};

use crate::blocks::Blocks;
use crate::oneof::{OneOf, is_last};
use crate::records::Records;
use pb_wire::{Payload, Record};
use std::alloc::Global;
use std::marker::Model;
use sub_types::NoMemory;

/// The winner so far: its number, and the payloads of its records since the last record of any other member.
#[derive(Drop)]
pub(crate) struct Won<'a> {
    pub(crate) number: Option<u32>,
    pub(crate) first: Option<&'a [u8]>,
    pub(crate) more: Vec<&'a [u8]>,
}

impl<'a> Model for Won<'a> {
    ghost use Rattle.std.specs.Prelude.{◌++◌};
    ghost use Rattle.std.specs.Option.{option_copied, option_to_list};
    ghost use Rattle.plan_scan.specs.Pieces.{pieces_of};
    ghost use Rattle.plan_scan.specs.Choice.{WonSoFar, HasFirst};

    ghost Value = { WonSoFar };

    ghost view = { λ won. record { number = won.number; pieces = option_to_list (option_copied won.first) ++ pieces_of won.more.items } };

    ghost invariant = { λ won. HasFirst won.first won.more.items };
}

impl<'a> Won<'a> {
    ghost use Rattle.std.specs.Prelude.{◌≡◌, ◌++◌, true, IfOk};
    ghost use Rattle.pb_wire.specs.Seen.{field_seen, content_of};
    ghost use Rattle.pb_wire.specs.Payloads.{fields_of, is_whole};
    ghost use Rattle.plan_scan.specs.Member.{is_member};
    ghost use Rattle.plan_scan.specs.Choice.{nothing_won, won_by, won_over, block_list};

    fn new(alloc: Global) -> Won<'a>
        ensures { result ≡ nothing_won }
    {
        Won {
            number: None,
            first: None,
            more: Vec::new(alloc),
        }
    }

    // Adds the records of a piece.
    fn add_all(&mut self, oneof: OneOf, piece: &'a [u8]) -> Result<(), NoMemory>
        requires { is_whole piece.now ≡ true }
        ensures { IfOk result (λ _. self.new ≡ won_over (is_member oneof) self.old (fields_of piece.entry.now)) }
    {
        let mut records = Records::new(piece, &[]);
        while let Some(found) = records.next() {
            self.add(oneof, &found)?;
        }
        Ok(())
    }

    // Adds a record.
    #[inline(always)]
    fn add(&mut self, oneof: OneOf, found: &Record<'a>) -> Result<(), NoMemory>
        ensures { IfOk result (λ _. self.new ≡ won_by (is_member oneof) self.old (field_seen found.now)) }
    {
        if !oneof.has_member(found) {
            return Ok(());
        }
        if !is_last(self.number, found.number) {
            self.number = Some(found.number);
            self.first = None;
            self.more.clear();
        }
        self.push(found)
    }

    // Adds the payload of a record of the winner.
    #[inline(always)]
    fn push(&mut self, found: &Record<'a>) -> Result<(), NoMemory>
        ensures { IfOk result (λ _. self.new ≡ record { number = self.old.number; pieces = self.old.pieces ++ block_list (content_of found.now.payload) }) }
    {
        let Payload::Bytes(block) = found.payload else {
            return Ok(());
        };
        if self.first.is_some() {
            self.more.push(block)?;
        } else {
            self.first = Some(block);
        }
        Ok(())
    }
}

/// The winner of a oneof among the records of a message in pieces.
pub(crate) fn choose<'a>(
    alloc: Global,
    oneof: OneOf,
    first: &'a [u8],
    later: Blocks<'a>,
) -> Result<Won<'a>, NoMemory>
    requires { list_all is_whole (first.now ∷ later) ≡ true }
    ensures { IfOk result (λ won. won ≡ won_over (is_member oneof) nothing_won (fields_of (concat (first.entry.now ∷ later.entry)))) }
{
    let mut won = Won::new(alloc);
    won.add_all(oneof, first)?;
    let mut later = later;
    while let Some(piece) = later.next() {
        won.add_all(oneof, piece)?;
    }
    Ok(won)
}
