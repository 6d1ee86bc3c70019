// The payloads of a field of texts, bytes or messages, read one after the other.
ghost use Rattle.std.specs.Prelude.{◌≡◌, ◌++◌, [], IsNone};
ghost use Rattle.std.specs.Option.{option_copied, option_to_list};
ghost use Rattle.pb_wire.specs.Payloads.{fields_of, blocks};

use crate::records::{Records, block_of};
use std::marker::Model;

/// A reader of the payloads of a field, seen as those that are left.
#[derive(Drop)]
pub(crate) struct Blocks<'a> {
    // Those that are known already, before those among the records.
    known: &'a [&'a [u8]],
    at: usize,
    records: Records<'a, 'a>,
    number: u32,
}

impl<'a> Model for Blocks<'a> {
    ghost use Rattle.std.specs.Prelude.{ℕ, List, ◌++◌, ◌≤◌, length, drop};
    ghost use Rattle.pb_wire.specs.Payloads.{fields_of, blocks};
    ghost use Rattle.plan_scan.specs.Pieces.{pieces_of};

    ghost Value = { List (List ℕ) };

    ghost view = { λ reader. pieces_of (drop reader.at reader.known.now) ++ blocks reader.number (fields_of reader.records) };

    ghost invariant = { λ reader. reader.at ≤ length reader.known.now };
}

impl<'a> Blocks<'a> {
    ghost use Rattle.std.specs.Prelude.{◌≡◌, ◌++◌, [], IsNone};
    ghost use Rattle.std.specs.Option.{option_copied, option_to_list};
    ghost use Rattle.pb_wire.specs.Payloads.{fields_of, blocks};
    ghost use Rattle.plan_scan.specs.Pieces.{pieces_of};

    /// The payloads of the field of this number among these records.
    pub(crate) fn new(records: Records<'a, 'a>, number: u32) -> Blocks<'a>
        ensures { result ≡ blocks number (fields_of records.entry) }
    {
        Blocks {
            known: &[],
            at: 0,
            records,
            number,
        }
    }

    /// These payloads.
    pub(crate) fn of(known: &'a [&'a [u8]]) -> Blocks<'a>
        ensures { result ≡ pieces_of known.entry.now }
    {
        Blocks {
            known,
            at: 0,
            records: Records::new(&[], &[]),
            number: 0,
        }
    }

    /// The same payloads again, from here on.
    #[inline(always)]
    pub(crate) fn again(&self) -> Blocks<'a>
        ensures { result ≡ self.now }
    {
        Blocks {
            known: self.known,
            at: self.at,
            records: self.records.again(),
            number: self.number,
        }
    }

    /// The next payload, or `None` at the end.
    #[inline(always)]
    pub(crate) fn next(&mut self) -> Option<&'a [u8]>
        ensures given { self.old ≡ option_to_list (option_copied result) ++ self.new }
        ensures none { IsNone result → self.old ≡ [] }
    {
        if self.at < self.known.len() {
            let block = self.known[self.at];
            self.at += 1;
            Some(block)
        } else {
            next_block(&mut self.records, self.number)
        }
    }
}

// The next payload of a field, or `None` at the end.
#[inline(always)]
fn next_block<'a>(records: &mut Records<'a, 'a>, number: u32) -> Option<&'a [u8]>
    ensures given { blocks number (fields_of records.old) ≡ option_to_list (option_copied result) ++ blocks number (fields_of records.new) }
    ensures none { IsNone result → blocks number (fields_of records.old) ≡ [] }
{
    while let Some(found) = records.next() {
        let block = block_of(&found, number);
        if block.is_some() {
            return block;
        }
    }
    None
}
