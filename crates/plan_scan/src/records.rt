// The records of a message in pieces, read one after the other.
ghost use Rattle.std.specs.Prelude.{◌≡◌};
ghost use Rattle.std.specs.Option.{option_copied};
ghost use Rattle.pb_wire.specs.Seen.{field_seen};
ghost use Rattle.pb_wire.specs.Payloads.{varint_in, block_in};

use pb_wire::{Fields, Payload, Record};
use std::marker::Model;

/// A reader of the records of a message in pieces, seen as the bytes that are left.
#[derive(Drop)]
pub(crate) struct Records<'p, 'a> {
    // What is left of the piece that is read.
    rest: &'a [u8],
    later: &'p [&'a [u8]],
    index: usize,
}

impl<'p, 'a> Model for Records<'p, 'a> {
    ghost use Rattle.std.specs.Prelude.{ℕ, ◌≤◌, List, length};
    ghost use Rattle.std.specs.List.{concat};
    ghost use Rattle.plan_scan.specs.Pieces.{left_pieces, AreWhole};

    ghost Value = { List ℕ };

    ghost view = { λ records. concat (left_pieces records.rest.now records.later.now records.index) };

    ghost invariant = { λ records. (records.index ≤ length records.later.now) × AreWhole (left_pieces records.rest.now records.later.now records.index) };
}

impl<'p, 'a> Records<'p, 'a> {
    ghost use Rattle.std.specs.Prelude.{◌≡◌, ◌<◌, ◌∷◌, length, OnSome};
    ghost use Rattle.std.specs.List.{concat};
    ghost use Rattle.plan_scan.specs.Pieces.{left_pieces, pieces_of, AreWhole, IsFirstRecord};

    /// The records of the first piece, and then those of the later ones.
    pub(crate) fn new(first: &'a [u8], later: &'p [&'a [u8]]) -> Records<'p, 'a>
        requires { AreWhole (left_pieces first.now later.now 0) }
        ensures { result ≡ concat (left_pieces first.entry.now later.entry.now 0) }
    {
        Records {
            rest: first,
            later,
            index: 0,
        }
    }

    /// The next record, or `None` at the end.
    #[inline(always)]
    pub(crate) fn next(&mut self) -> Option<Record<'a>>
        ensures first { IsFirstRecord self.old self.new result }
        ensures moved { OnSome result (length self.new < length self.old) }
    {
        loop {
            let mut fields = Fields::new(self.rest);
            match fields.next() {
                Some(Ok(found)) => {
                    self.rest = fields.rest();
                    return Some(found);
                }
                Some(Err(_)) => unreachable!(),
                None => {}
            }
            if self.index == self.later.len() {
                return None;
            }
            self.rest = self.later[self.index];
            self.index += 1;
        }
    }

    /// The same records again, from here on.
    #[inline(always)]
    pub(crate) fn again(&self) -> Records<'p, 'a>
        ensures { result ≡ self.now }
    {
        Records {
            rest: self.rest,
            later: self.later,
            index: self.index,
        }
    }

    /// The pieces that are left, the first apart.
    pub(crate) fn pieces(&self) -> (&'a [u8], &'p [&'a [u8]])
        ensures bytes { concat (result.0.now ∷ pieces_of result.1.now) ≡ self.now }
        ensures whole { AreWhole (result.0.now ∷ pieces_of result.1.now) }
    {
        let (_, later) = self.later.split_at(self.index);
        (self.rest, later)
    }
}

/// The number of a record of this field, where it is a varint.
#[inline(always)]
pub(crate) fn varint_of(found: &Record<'_>, number: u32) -> Option<u64>
    ensures { result ≡ varint_in number (field_seen found.now) }
{
    match found.payload {
        Payload::Varint(value) => {
            if found.number == number {
                Some(value)
            } else {
                None
            }
        }
        _ => None,
    }
}

/// The payload of a record of this field, where it is a block.
#[inline(always)]
pub(crate) fn block_of<'a>(found: &Record<'a>, number: u32) -> Option<&'a [u8]>
    ensures { option_copied result ≡ block_in number (field_seen found.now) }
{
    match found.payload {
        Payload::Bytes(bytes) => {
            if found.number == number {
                Some(bytes)
            } else {
                None
            }
        }
        _ => None,
    }
}
