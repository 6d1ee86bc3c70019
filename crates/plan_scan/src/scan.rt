// The first flaw of a plan, in one pass over its bytes.
ghost use Rattle.std.specs.Prelude.{◌≡◌, ◌<◌, ◌≤◌, ◌+◌, ◌^◌, length};
ghost use Rattle.std.specs.Str.{is_utf8};
ghost use Rattle.pb_wire.specs.Seen.{block_len};
ghost use Rattle.plan_scan.specs.Flaw.{flaw, flaw_unless, message_flaw};
ghost use Rattle.plan_scan.specs.Seen.{found_flaw};

use crate::flaw::Flaw;
use crate::shape::{Shape, Use};
use crate::table::use_of_field;
use pb_wire::{Fields, Packed, Payload, Record};

/// The most levels of messages in a plan, the plan's own among them.
pub(crate) const LEVELS: u32 = 100;

/// The first flaw of a plan in the order of its bytes, or `None` where it is readable.
#[tactic(auto, unfolding(crate::specs::Flaw::flaw))]
pub fn flaw_of(bytes: &[u8]) -> Option<Flaw>
    ensures { result ≡ flaw bytes.now }
{
    first_flaw(LEVELS, Shape::Plan, 0, 0, bytes)
}

// The first flaw of a message, where so many levels are left to it and the messages in it. The places are those of its
// record and of its bytes.
#[cycle(scan)]
fn first_flaw(levels: u32, shape: Shape, place: usize, start: usize, bytes: &[u8]) -> Option<Flaw>
    requires { start + length bytes.now < 2 ^ 64 }
    ensures { result ≡ message_flaw levels shape place start bytes.now }
{
    if levels == 0 {
        return Some(Flaw::TooDeep(place));
    }
    let mut fields = Fields::new(bytes);
    while let Some(next) = fields.next() {
        let record = match next {
            Ok(record) => record,
            Err(broken) => return Some(Flaw::Unreadable(start + broken)),
        };
        let flaw = record_flaw(levels - 1, shape, start, fields.place(), &record);
        if flaw.is_some() {
            return flaw;
        }
    }
    None
}

// The flaw of a record that ends before the place `behind` of its message.
#[cycle(scan)]
fn record_flaw(
    levels: u32,
    shape: Shape,
    start: usize,
    behind: usize,
    found: &Record<'_>,
) -> Option<Flaw>
    requires place { found.now.place ≤ behind }
    requires payload { block_len found.now.payload ≤ behind }
    requires within { start + behind < 2 ^ 64 }
    ensures { result ≡ found_flaw (message_flaw levels) shape start behind found.now }
{
    let Payload::Bytes(block) = found.payload else {
        return None;
    };
    let place = start + found.place;
    match use_of_field(shape, found.number) {
        Use::Text => flaw_unless(is_text(block), place),
        Use::Numbers => flaw_unless(Packed::new(block).is_some(), place),
        Use::Message(inner) => first_flaw(
            levels,
            inner,
            place,
            start + behind - block.len(),
            block,
        ),
        Use::Unnamed | Use::Number | Use::Bytes => None,
    }
}

fn flaw_unless(well: bool, place: usize) -> Option<Flaw>
    ensures { result ≡ flaw_unless well place }
{
    if well {
        None
    } else {
        Some(Flaw::Unreadable(place))
    }
}

// Whether the bytes are UTF-8.
pub(crate) fn is_text(bytes: &[u8]) -> bool
    ensures { result ≡ is_utf8 bytes.now }
{
    simdutf8::is_utf8(bytes)
}
