// Vectors and texts.
ghost use Rattle.std.specs.Prelude.{◌≡◌, ◌<◌, ◌^◌, ◌↔◌, length, IfOk, IsTrue};
ghost use Rattle.fb_bytes.specs.Reading as reading;

use crate::number::{bad, offset_at};
use crate::table::table_at;
use crate::{BadBuffer, Table};
use byteorder::{ByteOrder, LittleEndian};
use std::marker::Model;

/// A vector in bytes (FlatBuffers internals, "Vectors"), whose elements are all inside them.
#[derive(Drop)]
pub struct FbVector<'a> {
    bytes: &'a [u8],
    start: usize,
    count: u32,
    width: u32,
}

impl<'a> Model for FbVector<'a> {
    ghost use Rattle.fb_bytes.specs.Reading.{VectorAt, HasElementsInside};

    ghost Value = { VectorAt };

    ghost view = { λ v. record { bytes = v.bytes.now; start = v.start; count = v.count; width = v.width } };

    ghost invariant = { λ v. HasElementsInside (record { bytes = v.bytes.now; start = v.start; count = v.count; width = v.width }) };
}

// The vector at a place.
#[tactic(auto, unfolding(crate::specs::Reading::vector_at, crate::specs::Reading::number_at))]
pub(crate) fn vector_at(bytes: &[u8], width: u32, place: usize) -> Result<FbVector<'_>, BadBuffer>
    requires small { length bytes.now < 2 ^ 31 }
    requires near { place < 2 ^ 40 }
    ensures value { result ≡ reading.vector_at bytes.now width place }
    ensures width { IfOk result (λ v. v.width ≡ width) }
    ensures inside { IfOk result reading.HasElementsInside }
{
    if place + 4 > bytes.len() {
        return Err(bad(place));
    }
    let (_, rest) = bytes.split_at(place);
    let count = LittleEndian::read_u32(rest);
    let size = u64::from(width) * u64::from(count);
    if size > (bytes.len() - (place + 4)) as u64 {
        return Err(bad(place));
    }
    Ok(FbVector {
        bytes,
        start: place + 4,
        count,
        width,
    })
}

// The text at a place.
#[tactic(auto, unfolding(crate::specs::Reading::text_at))]
pub(crate) fn text_at(bytes: &[u8], place: usize) -> Result<&[u8], BadBuffer>
    requires small { length bytes.now < 2 ^ 31 }
    requires near { place < 2 ^ 40 }
    ensures value { reading.text_seen result ≡ reading.text_at bytes.now place }
{
    Ok(vector_at(bytes, 1, place)?.elements())
}

impl<'a> FbVector<'a> {
    /// How many elements there are.
    pub fn len(&self) -> u32
        ensures { result ≡ self.now.count }
    {
        self.count
    }

    pub fn is_empty(&self) -> bool
        ensures { IsTrue result ↔ (self.now.count ≡ 0) }
    {
        self.count == 0
    }

    /// The bytes of all elements, one after the other.
    #[tactic(auto, unfolding(crate::specs::Reading::elements_of))]
    pub fn elements(&self) -> &'a [u8]
        ensures { result.now ≡ reading.elements_of self.now }
    {
        let (_, rest) = self.bytes.split_at(self.start);
        let (elements, _) = rest.split_at(self.width as usize * self.count as usize);
        elements
    }

    /// The bytes of the element at `i`.
    #[tactic(auto, unfolding(crate::specs::Reading::item_of))]
    pub fn item(&self, i: u32) -> &'a [u8]
        requires { i < self.now.count }
        ensures value { result.now ≡ reading.item_of self.now i }
        ensures inside { length result.now ≡ self.now.width }
    {
        let (_, rest) = self
            .bytes
            .split_at(self.start + self.width as usize * i as usize);
        let (item, _) = rest.split_at(self.width as usize);
        item
    }

    /// The table that the element at `i` leads to, in a vector of offsets.
    #[tactic(auto, unfolding(crate::specs::Reading::table_item))]
    pub fn table_at(&self, i: u32) -> Result<Table<'a>, BadBuffer>
        requires within { i < self.now.count }
        requires offsets { self.now.width ≡ 4 }
        ensures { result ≡ reading.table_item self.now i }
    {
        let place = offset_at(self.bytes, self.start + 4 * i as usize)?;
        table_at(self.bytes, place)
    }
}
