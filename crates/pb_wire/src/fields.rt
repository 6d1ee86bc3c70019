// The records of a message, read one after the other (Protocol Buffers encoding, "Message Structure").
ghost use Rattle.std.specs.Prelude.{◌≡◌, ◌≤◌, ◌<◌, ◌^◌, ◌+◌, length, drop, IfSome};
ghost use Rattle.std.specs.Option.{option_map};
ghost use Rattle.pb_wire.specs.Records.{stands, payload_of, fixed, block_of, Eight, Four};
ghost use Rattle.pb_wire.specs.Seen.{content_of, entry_of, block_len};

use crate::record::{Payload, Record};
use crate::varint;
use byteorder::{ByteOrder, LittleEndian};
use std::marker::Model;

/// A reader of the records of a message, seen as the place that it has come to and the bytes from there on.
#[derive(Debug, Drop)]
pub struct Fields<'a> {
    bytes: &'a [u8],
    place: usize,
}

impl<'a> Model for Fields<'a> {
    ghost use Rattle.std.specs.Prelude.{drop, length, ◌≤◌};
    ghost use Rattle.pb_wire.specs.Seen.{Rest};

    ghost Value = { Rest };

    ghost view = { λ fields. record { place = fields.place; bytes = drop fields.place fields.bytes.now } };

    ghost invariant = { λ fields. fields.place ≤ length fields.bytes.now };
}

impl<'a> Fields<'a> {
    ghost use Rattle.std.specs.Prelude.{◌≡◌, ◌<◌, ◌≤◌, ◌+◌, length, IfSome, IfOk, OnOk};
    ghost use Rattle.pb_wire.specs.Seen.{IsNext, IsFirst, IsFirstField, IsBehind, block_len};

    /// The records of a message, from the first on.
    #[inline(always)]
    pub fn new(bytes: &'a [u8]) -> Fields<'a>
        ensures { result ≡ record { place = 0; bytes = bytes.entry.now } }
    {
        Fields { bytes, place: 0 }
    }

    /// The place that the reader has come to, in the bytes that it was made with.
    #[inline(always)]
    pub fn place(&self) -> usize
        ensures { result ≡ self.now.place }
    {
        self.place
    }

    /// The bytes from the place on that the reader has come to.
    #[inline(always)]
    pub fn rest(&self) -> &'a [u8]
        ensures { result.now ≡ self.now.bytes }
    {
        let (_, rest) = self.bytes.split_at(self.place);
        rest
    }

    /// The next record; `Err` with the place where no record stands, and then always the same; `None` at the end.
    #[inline(always)]
    #[tactic(auto, using(crate::proofs::ScanLaws::first_of_next, crate::proofs::FieldLaws::first_field_of_next, crate::proofs::ScanLaws::behind_of_next))]
    pub fn next(&mut self) -> Option<Result<Record<'a>, usize>>
        ensures next { IsNext self.old self.new result }
        ensures first { IsFirst self.old self.new result }
        ensures field { IsFirstField self.old self.new result }
        ensures moved { IfSome result (λ next. OnOk next (length self.new.bytes < length self.old.bytes)) }

        // A record takes the bytes up to the place that the reader has come to.
        ensures size { IfSome result (λ next. IfOk next (λ found. IsBehind found self.old self.new)) }

        // A payload lies before the place that the reader has come to, which never leaves the bytes.
        ensures payload { IfSome result (λ next. IfOk next (λ found. block_len found.payload ≤ self.new.place)) }
        ensures within { self.new.place + length self.new.bytes ≡ self.old.place + length self.old.bytes }
    {
        self.step()
    }

    #[inline(always)]
    fn step(&mut self) -> Option<Result<Record<'a>, usize>>
        ensures next { IsNext self.old self.new result }
        ensures moved { IfSome result (λ next. OnOk next (length self.new.bytes < length self.old.bytes)) }
        ensures payload { IfSome result (λ next. IfOk next (λ found. block_len found.payload ≤ self.new.place)) }
        ensures within { self.new.place + length self.new.bytes ≡ self.old.place + length self.old.bytes }
    {
        let rest = self.rest();
        if rest.len() == 0 {
            return None;
        }
        let Some((record, size)) = record_at(rest, self.place) else {
            return Some(Err(self.place));
        };
        self.place += size;
        Some(Ok(record))
    }
}

// The record that begins the bytes, which stand at this place, and how many bytes it takes.
#[inline(always)]
#[tactic(auto, unfolding(crate::specs::Records::stands))]
fn record_at<'a>(bytes: &'a [u8], place: usize) -> Option<(Record<'a>, usize)>
    ensures stands { option_map (λ found. entry_of found.0 found.1) result ≡ stands bytes.entry.now }
    ensures place { IfSome result (λ found. found.0.place ≡ place) }
    ensures size { IfSome result (λ found. (0 < found.1) × (found.1 ≤ length bytes.entry.now)) }
    ensures payload { IfSome result (λ found. block_len found.0.payload ≤ found.1) }
{
    let (key, key_len) = varint(bytes)?;
    if key >= 1 << 32 || key < 8 {
        return None;
    }
    let (_, rest) = bytes.split_at(key_len);
    let (payload, len) = payload(key % 8, rest)?;
    let record = Record {
        place,
        number: (key / 8) as u32,
        payload,
    };
    Some((record, key_len + len))
}

// The payload of this wire type that begins the bytes, and its length.
#[inline(always)]
fn payload<'a>(wire: u64, bytes: &'a [u8]) -> Option<(Payload<'a>, usize)>
    ensures payload { option_map (λ found. (content_of found.0, found.1)) result ≡ payload_of wire bytes.entry.now }
    ensures len { IfSome result (λ found. (block_len found.0 ≤ found.1) × (found.1 ≤ length bytes.entry.now)) }
{
    if wire == 0 {
        let (value, len) = varint(bytes)?;
        return Some((Payload::Varint(value), len));
    }
    if wire == 1 {
        return eight(bytes);
    }
    if wire == 2 {
        return block(bytes);
    }
    if wire == 5 {
        return four(bytes);
    }
    None
}

fn eight<'a>(bytes: &'a [u8]) -> Option<(Payload<'a>, usize)>
    ensures payload { option_map (λ found. (content_of found.0, found.1)) result ≡ fixed 8 Eight bytes.entry.now }
    ensures len { IfSome result (λ found. (block_len found.0 ≤ found.1) × (found.1 ≤ length bytes.entry.now)) }
{
    if bytes.len() < 8 {
        return None;
    }
    Some((Payload::Eight(LittleEndian::read_u64(bytes)), 8))
}

fn four<'a>(bytes: &'a [u8]) -> Option<(Payload<'a>, usize)>
    ensures payload { option_map (λ found. (content_of found.0, found.1)) result ≡ fixed 4 Four bytes.entry.now }
    ensures len { IfSome result (λ found. (block_len found.0 ≤ found.1) × (found.1 ≤ length bytes.entry.now)) }
{
    if bytes.len() < 4 {
        return None;
    }
    Some((Payload::Four(LittleEndian::read_u32(bytes)), 4))
}

// A length and that many bytes.
#[inline(always)]
fn block<'a>(bytes: &'a [u8]) -> Option<(Payload<'a>, usize)>
    ensures payload { option_map (λ found. (content_of found.0, found.1)) result ≡ block_of bytes.entry.now }
    ensures len { IfSome result (λ found. (block_len found.0 ≤ found.1) × (found.1 ≤ length bytes.entry.now)) }
{
    let (len, from) = varint(bytes)?;
    let (_, rest) = bytes.split_at(from);
    if len > rest.len() as u64 {
        return None;
    }
    let (block, _) = rest.split_at(len as usize);
    Some((Payload::Bytes(block), from + len as usize))
}
