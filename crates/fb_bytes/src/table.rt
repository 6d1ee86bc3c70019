// Tables and their fields.
ghost use Rattle.std.specs.Prelude.{◌≡◌, ℕ, ◌+◌, ◌<◌, ◌≤◌, ◌^◌, pos, ◌-ℤ◌, ◌≤ℤ◌, ◌↔◌, length, IfOk, IfSome};
ghost use Rattle.fb_bytes.specs.Object.{IsWidth};
ghost use Rattle.fb_bytes.specs.Reading as reading;

use crate::number::{bad, number_at, offset_at};
use crate::vector::{text_at, vector_at};
use crate::{BadBuffer, FbVector};
use byteorder::{ByteOrder, LittleEndian};
use std::marker::Model;

/// A table in bytes (FlatBuffers internals, "Tables"), whose own four bytes and whose whole vtable are
/// inside them.
#[derive(Drop)]
pub struct Table<'a> {
    bytes: &'a [u8],
    place: usize,
    vtable: usize,
    vtable_size: usize,
}

impl<'a> Model for Table<'a> {
    ghost use Rattle.fb_bytes.specs.Reading.{TableAt, IsInside};

    ghost Value = { TableAt };

    ghost view = { λ t. record { bytes = t.bytes.now; place = t.place; vtable = t.vtable } };

    ghost invariant = { λ t. IsInside t.bytes.now t.place t.vtable t.vtable_size };
}

// The size of the vtable at a place, if the vtable is inside the bytes.
#[tactic(auto, unfolding(crate::specs::Reading::whole_vtable))]
fn vtable_size(bytes: &[u8], vtable: usize) -> Option<usize>
    requires small { length bytes.now < 2 ^ 31 }
    requires near { vtable ≤ 2 ^ 41 }
    ensures value { result ≡ reading.whole_vtable bytes.now vtable }
{
    if vtable + 4 > bytes.len() {
        return None;
    }
    let (_, rest) = bytes.split_at(vtable);
    let size = LittleEndian::read_u16(rest) as usize;
    if size < 4 || vtable + size > bytes.len() {
        return None;
    }
    Some(size)
}

// The table at a place.
#[tactic(auto, unfolding(crate::specs::Reading::table_at, crate::specs::Reading::number_at))]
pub(crate) fn table_at(bytes: &[u8], place: usize) -> Result<Table<'_>, BadBuffer>
    requires small { length bytes.now < 2 ^ 31 }
    requires near { place < 2 ^ 40 }
    ensures value { result ≡ reading.table_at bytes.now place }
{
    if place + 4 > bytes.len() {
        return Err(bad(place));
    }
    let (_, rest) = bytes.split_at(place);
    let distance = LittleEndian::read_i32(rest);
    with_vtable(bytes, place, vtable_place(place, distance))
}

// Where the vtable of a table begins, which may be before the bytes.
fn vtable_place(place: usize, distance: i32) -> i64
    requires { place < 2 ^ 40 }
    ensures { result ≡ pos place -ℤ distance }
{
    place as i64 - i64::from(distance)
}

// The table at a place, whose vtable begins at `vtable`.
#[tactic(auto, unfolding(crate::specs::Reading::whole_vtable))]
fn with_vtable(bytes: &[u8], place: usize, vtable: i64) -> Result<Table<'_>, BadBuffer>
    requires small { length bytes.now < 2 ^ 31 }
    requires near { vtable ≤ℤ pos (2 ^ 41) }
    requires inside { place + 4 ≤ length bytes.now }
    ensures value { result ≡ reading.with_vtable bytes.now place vtable }
{
    if vtable < 0 {
        return Err(BadBuffer { place: vtable });
    }
    let start = vtable as usize;
    match vtable_size(bytes, start) {
        None => Err(BadBuffer { place: vtable }),
        Some(vtable_size) => Ok(Table {
            bytes,
            place,
            vtable: start,
            vtable_size,
        }),
    }
}

impl<'a> Table<'a> {
    /// The root table of a buffer. The bytes may be any; nothing outside them is read.
    #[tactic(auto, unfolding(crate::specs::Reading::root_of))]
    pub fn root(bytes: &[u8]) -> Result<Table<'_>, BadBuffer>
        requires { length bytes.now < 2 ^ 31 }
        ensures { result ≡ reading.root_of bytes.now }
    {
        let place = offset_at(bytes, 0)?;
        table_at(bytes, place)
    }

    // Where the field of a slot stands.
    #[tactic(auto, unfolding(crate::specs::Reading::field_of, crate::specs::Reading::entry_of))]
    fn field(&self, slot: u16) -> Option<usize>
        ensures value { result ≡ reading.field_of self.now slot }
        ensures near { IfSome result (λ place. place < 2 ^ 32) }
        ensures small { length self.now.bytes < 2 ^ 31 }
    {
        let entry = 4 + 2 * slot as usize;
        if entry + 2 > self.vtable_size {
            return None;
        }
        let (_, rest) = self.bytes.split_at(self.vtable + entry);
        let from = LittleEndian::read_u16(rest) as usize;
        if from == 0 {
            None
        } else {
            Some(self.place + from)
        }
    }

    // The place that the offset in a slot leads to.
    #[tactic(auto, unfolding(crate::specs::Reading::reference_of))]
    fn reference(&self, slot: u16) -> Result<Option<usize>, BadBuffer>
        ensures value { result ≡ reading.reference_of self.now slot }
        ensures absent { (result ≡ Ok None) ↔ (reading.field_of self.now slot ≡ None) }
        ensures near { IfOk result (λ o. IfSome o (λ place. place < 2 ^ 40)) }
        ensures small { length self.now.bytes < 2 ^ 31 }
    {
        match self.field(slot) {
            None => Ok(None),
            Some(place) => Ok(Some(offset_at(self.bytes, place)?)),
        }
    }

    /// The number in the low `width` bytes of a slot's field.
    #[tactic(auto, unfolding(crate::specs::Reading::scalar_of))]
    pub fn scalar(&self, slot: u16, width: u8) -> Result<Option<u64>, BadBuffer>
        requires { IsWidth width }
        ensures value { result ≡ reading.scalar_of self.now slot width }
        ensures absent { (result ≡ Ok None) ↔ (reading.field_of self.now slot ≡ None) }
    {
        let Some(place) = self.field(slot) else {
            return Ok(None);
        };
        Ok(Some(number_at(self.bytes, width as usize, place)?))
    }

    /// The table that a slot leads to.
    #[tactic(auto, unfolding(crate::specs::Reading::table_of))]
    pub fn table(&self, slot: u16) -> Result<Option<Table<'a>>, BadBuffer>
        ensures value { result ≡ reading.table_of self.now slot }
        ensures absent { (result ≡ Ok None) ↔ (reading.field_of self.now slot ≡ None) }
    {
        match self.reference(slot)? {
            None => Ok(None),
            Some(place) => Ok(Some(table_at(self.bytes, place)?)),
        }
    }

    /// The vector that a slot leads to, of elements of `width` bytes.
    #[tactic(auto, unfolding(crate::specs::Reading::vector_of))]
    pub fn vector(&self, slot: u16, width: u32) -> Result<Option<FbVector<'a>>, BadBuffer>
        ensures value { result ≡ reading.vector_of self.now slot width }
        ensures absent { (result ≡ Ok None) ↔ (reading.field_of self.now slot ≡ None) }
        ensures width { IfOk result (λ o. IfSome o (λ v. v.width ≡ width)) }
        ensures inside { IfOk result (λ o. IfSome o reading.HasElementsInside) }
    {
        match self.reference(slot)? {
            None => Ok(None),
            Some(place) => Ok(Some(vector_at(self.bytes, width, place)?)),
        }
    }

    /// The bytes of the string that a slot leads to. They need not be UTF-8.
    #[tactic(auto, unfolding(crate::specs::Reading::text_of))]
    pub fn text(&self, slot: u16) -> Result<Option<&'a [u8]>, BadBuffer>
        ensures value { reading.seen result ≡ reading.text_of self.now slot }
        ensures absent { (result ≡ Ok None) ↔ (reading.field_of self.now slot ≡ None) }
    {
        match self.reference(slot)? {
            None => Ok(None),
            Some(place) => Ok(Some(text_at(self.bytes, place)?)),
        }
    }
}
