// The payloads of a singular field, which are one message.
ghost use Rattle.std.specs.Prelude.{◌≡◌, ◌∷◌, IfOk};
ghost use Rattle.std.specs.List.{concat};
ghost use Rattle.pb_wire.specs.Payloads.{fields_of};
ghost use Rattle.plan_scan.specs.Pieces.{pieces_of, later_of, AreWhole};
ghost use Rattle.plan_scan.specs.Index.{IsIndex};

use crate::index::index_of;
use crate::message::Message;
use crate::records::Records;
use crate::shape::Shape;
use std::alloc::Global;
use std::marker::Model;
use sub_types::NoMemory;

/// A message with fewer pieces than this behind its first is passed over for each of its fields.
const MANY: usize = 64;

/// The message of a singular field: the payloads of all its records, one after the other, which aren't copied.
#[derive(Drop)]
pub struct Merged<'a> {
    shape: Shape,
    below: u32,
    first: &'a [u8],
    own: Vec<&'a [u8]>,
    known: &'a [&'a [u8]],
    index: Vec<Vec<&'a [u8]>>,
}

impl<'a> Model for Merged<'a> {
    ghost use Rattle.std.specs.Prelude.{◌≡◌, suc, ◌∷◌, true};
    ghost use Rattle.std.specs.List.{concat, list_all};
    ghost use Rattle.pb_wire.specs.Payloads.{fields_of};
    ghost use Rattle.plan_scan.specs.Scanned.{Scanned, is_readable};
    ghost use Rattle.plan_scan.specs.Pieces.{pieces_of, later_of};
    ghost use Rattle.plan_scan.specs.Index.{IsIndex};

    ghost Value = { Scanned };

    ghost view = { λ m. record { shape = m.shape; below = m.below; bytes = concat (m.first.now ∷ pieces_of (later_of m.own.items m.known.now)) } };

    ghost invariant = { λ m. (list_all (is_readable (suc m.below) m.shape) (m.first.now ∷ pieces_of (later_of m.own.items m.known.now)) ≡ true) × IsIndex m.index.items (fields_of (concat (m.first.now ∷ pieces_of (later_of m.own.items m.known.now)))) };
}

impl<'a> Merged<'a> {
    ghost use Rattle.std.specs.Prelude.{◌≡◌, suc, ◌∷◌, true, IfOk};
    ghost use Rattle.std.specs.List.{concat, list_all};
    ghost use Rattle.plan_scan.specs.Scanned.{is_readable};
    ghost use Rattle.plan_scan.specs.Pieces.{pieces_of, later_of};

    /// The message of these pieces: the first, and then its own, or else those that are known.
    pub(crate) fn new(
        alloc: Global,
        shape: Shape,
        below: u32,
        first: &'a [u8],
        own: Vec<&'a [u8]>,
        known: &'a [&'a [u8]],
    ) -> Result<Merged<'a>, NoMemory>
        requires { list_all (is_readable (suc below) shape) (first.now ∷ pieces_of (later_of own.items known.now)) ≡ true }
        ensures { IfOk result (λ m. m ≡ record { shape = shape; below = below; bytes = concat (first.entry.now ∷ pieces_of (later_of own.entry.items known.entry.now)) }) }
    {
        let index = index_for(alloc, shape, first, later(&own, &*known))?;
        Ok(Merged {
            shape,
            below,
            first,
            own,
            known,
            index,
        })
    }

    /// The message.
    pub fn message(&self) -> Message<'_>
        ensures { result ≡ self.now }
    {
        Message::indexed(
            self.shape,
            self.below,
            self.first,
            later(&self.own, self.known),
            &self.index,
        )
    }
}

fn later<'p, 'a>(own: &'p [&'a [u8]], known: &'p [&'a [u8]]) -> &'p [&'a [u8]]
    ensures { result.now ≡ later_of own.entry.now known.entry.now }
{
    if own.is_empty() { known } else { own }
}

// An index of a message that has one: of many pieces, and with many fields.
fn index_for<'a>(
    alloc: Global,
    shape: Shape,
    first: &'a [u8],
    later: &[&'a [u8]],
) -> Result<Vec<Vec<&'a [u8]>>, NoMemory>
    requires { AreWhole (first.now ∷ pieces_of later.now) }
    ensures { IfOk result (λ index. IsIndex index.items (fields_of (concat (first.now ∷ pieces_of later.now)))) }
{
    if later.len() < MANY || !has_many_fields(shape) {
        return Ok(Vec::new(alloc));
    }
    index_of(alloc, Records::new(first, later))
}

// Whether messages of this shape have more than two fields of texts, bytes or messages that aren't members of one oneof.
fn has_many_fields(shape: Shape) -> bool {
    matches!(
        shape,
        Shape::ReadRel
            | Shape::FilterRel
            | Shape::FetchRel
            | Shape::AggregateRel
            | Shape::SortRel
            | Shape::JoinRel
            | Shape::ProjectRel
            | Shape::CrossRel
            | Shape::ScalarFunction
            | Shape::AggregateFunction
            | Shape::FieldReference
            | Shape::SwitchExpression
    )
}
