// A column of texts or binaries, or a part of one, lent without a copy.
ghost use Rattle.std.specs.Prelude.{◌≡◌, ◌↔◌, ◌+◌, ◌^◌, ◌<◌, ◌≤◌, ◌++◌, [], None, length, map, is_some, slice_index_or, option_copied, All, OnOk, OnErr, IfOk, IfSome, IsTrue};
ghost use Rattle.std.specs.List.{slice_range, concat};
ghost use Rattle.sub_types.specs.Slots.{slots};
ghost use Rattle.col_text.specs.Text.{ends_of, offset_of, values_at, texts_at};

use crate::narrow::NarrowTexts;
use crate::{Ends, TextCol};
use std::alloc::Global;
use std::marker::Model;
use sub_types::{Bits, NoMemory};

/// A column of texts or binaries, or a part of one. Contracts see its list of optional byte lists.
#[derive(Drop)]
pub struct TextView<'a> {
    column: &'a TextCol,
    from: usize,
    len: usize,
}

impl<'a> Model for TextView<'a> {
    ghost use Rattle.std.specs.Prelude.{ℕ, ◌+◌, List, Option};
    ghost use Rattle.std.specs.List.{slice_range};
    ghost use Rattle.sub_types.specs.Part.{IsPart};

    ghost Value = { List (Option (List ℕ)) };

    ghost view = { λ part. slice_range part.column.now part.from (part.from + part.len) };

    ghost invariant = { λ part. IsPart part.from part.len part.column.now };
}

impl<'a> TextView<'a> {
    /// The whole column.
    pub fn of(column: &'a TextCol) -> TextView<'a>
        ensures { result ≡ column.now }
    {
        TextView {
            column,
            from: 0,
            len: column.len(),
        }
    }

    pub fn len(&self) -> usize
        ensures { result ≡ length self.now }
    {
        self.len
    }

    pub fn is_empty(&self) -> bool
        ensures { IsTrue result ↔ (self.now ≡ []) }
    {
        self.len == 0
    }

    /// The values from `from` to before `to`.
    pub fn part(&self, from: usize, to: usize) -> TextView<'a>
        requires rising { from ≤ to }
        requires within { to ≤ length self.now }
        ensures { result ≡ slice_range self.now from to }
    {
        TextView {
            column: self.column,
            from: self.from + from,
            len: to - from,
        }
    }

    pub fn value_at(&self, i: usize) -> Option<&'a [u8]>
        requires { i < length self.now }
        ensures { option_copied result ≡ slice_index_or self.now i None }
    {
        self.column.value_at(self.from + i)
    }

    /// Where in the bytes of this view the value at `i` begins, and behind the last where they end.
    pub fn offset(&self, i: usize) -> usize
        requires { i ≤ length self.now }
        ensures { result ≡ offset_of (slots [] self.now) i }
    {
        let (begin, place) = self.column.extent(self.from, self.from + i);
        place - begin
    }

    /// The bytes of all values, one behind the other. A null has none.
    pub fn bytes(&self) -> &'a [u8]
        ensures { result.now ≡ concat (slots [] self.now) }
    {
        self.column.bytes_between(self.from, self.from + self.len)
    }

    /// Which values are there: the bits of the column, and from where to where they are this view's.
    pub fn validity(&self) -> (&'a Bits, usize, usize)
        ensures rising { result.1 ≤ result.2 }
        ensures within { result.2 ≤ length result.0.now }
        ensures bits { slice_range result.0.now result.1 result.2 ≡ map is_some self.now }
    {
        (self.column.validity(), self.from, self.from + self.len)
    }

    /// Adds where these values end to other ends, if the first of them begins at `start`.
    pub(crate) fn add_ends(&self, ends: &mut Ends, start: usize) -> Result<(), NoMemory>
        requires { start + length (concat (slots [] self.now)) < 2 ^ 64 }
        ensures ok { OnOk result (ends.new ≡ ends.old ++ ends_of start (slots [] self.now)) }
        ensures err { OnErr result (ends.new ≡ ends.old) }
    {
        let end = self.from + self.len;
        let (begin, _) = self.column.extent(self.from, end);
        let shift = start.wrapping_sub(begin);
        ends.extend_moved(self.column.ends(), self.from, end, shift)
    }

    /// The values at these places, in this order.
    pub fn gather(&self, alloc: Global, at: &[u64]) -> Result<TextCol, NoMemory>
        requires { All (λ i. i < length self.now) at.now }
        ensures { IfOk result (λ column. column ≡ map (λ i. slice_index_or self.now i None) at.now) }
    {
        let valid = self.gather_validity(alloc, at)?;
        self.gather_texts(alloc, at, valid)
    }

    /// The values at these places, in this order, and null at a place where there is none, as an outer join wants
    /// it of a row without a match.
    pub fn gather_or_null(&self, alloc: Global, at: &[u64]) -> Result<TextCol, NoMemory>
        ensures { IfOk result (λ column. column ≡ map (λ i. slice_index_or self.now i None) at.now) }
    {
        let count = self.len as u64;
        if at.iter().all(|i| *i < count) {
            return self.gather(alloc, at);
        }
        let valid = self.validity_or_null(alloc, at)?;
        self.gather_texts(alloc, at, valid)
    }

    // The texts at these places, beside which of them are there.
    fn gather_texts(&self, alloc: Global, at: &[u64], valid: Bits) -> Result<TextCol, NoMemory>
        requires { valid ≡ map is_some (values_at self.now at.now) }
        ensures { IfOk result (λ column. column ≡ map (λ i. slice_index_or self.now i None) at.now) }
    {
        if let Some(texts) = self.narrow_texts() {
            let (ends, size) = texts.gather_ends(alloc, at)?;
            if size < 1 << 32 {
                let bytes = texts.gather_bytes(alloc, at, size)?;
                return Ok(TextCol::from_ends(Ends::from_narrow(alloc, ends), bytes, valid));
            }
        }
        let ends = self.gather_ends(alloc, at)?;
        let bytes = self.gather_bytes(alloc, at, ends.last())?;
        Ok(TextCol::from_ends(ends, bytes, valid))
    }

    // The texts, if their ends take four bytes each. A null's is empty.
    fn narrow_texts(&self) -> Option<NarrowTexts<'a>>
        ensures { IfSome result (λ texts. texts ≡ slots [] self.now) }
    {
        let end = self.from + self.len;
        let Some(ends) = self.column.ends().narrow() else {
            return None;
        };
        let (first, _) = self.column.extent(self.from, end);
        let bytes = self.column.bytes_between(0, end);
        Some(NarrowTexts::new(first, &ends[self.from..end], bytes))
    }

    // The bytes of one value. A null has none, and neither has a place where there is no value.
    fn text_at(&self, i: u64) -> &'a [u8]
        ensures { result.now ≡ slice_index_or (slots [] self.now) i [] }
    {
        if i >= self.len() as u64 {
            return &[];
        }
        let place = self.from + i as usize;
        self.column.bytes_between(place, place + 1)
    }

    // Where the values at these places end, one behind the other.
    fn gather_ends(&self, alloc: Global, at: &[u64]) -> Result<Ends, NoMemory>
        ensures { IfOk result (λ ends. ends ≡ ends_of 0 (texts_at self.now at.now)) }
    {
        let mut ends = Ends::with_capacity(alloc, at.len())?;
        let mut end: usize = 0;
        for i in at {
            // No memory holds more bytes.
            let Some(next) = end.checked_add(self.text_at(*i).len()) else {
                return Err(NoMemory);
            };
            ends.push(next)?;
            end = next;
        }
        Ok(ends)
    }

    // The bytes of the values at these places, one behind the other, of which `size` are awaited.
    fn gather_bytes(&self, alloc: Global, at: &[u64], size: usize) -> Result<Vec<u8>, NoMemory>
        ensures { IfOk result (λ bytes. bytes.items ≡ concat (texts_at self.now at.now)) }
    {
        let mut bytes = Vec::with_capacity(alloc, size)?;
        for i in at {
            bytes.extend_from_slice(self.text_at(*i))?;
        }
        Ok(bytes)
    }

    // Which of the values at these places are there.
    fn gather_validity(&self, alloc: Global, at: &[u64]) -> Result<Bits, NoMemory>
        requires { All (λ i. i < length self.now) at.now }
        ensures { IfOk result (λ bits. bits ≡ map is_some (values_at self.now at.now)) }
    {
        let (valid, from, to) = self.validity();
        if from > 0 {
            return valid.part(alloc, from, to)?.gather(alloc, at);
        }
        // Looking for a null in all of the column pays where much of it is gathered.
        if to / 64 <= at.len() && valid.is_all() {
            return Bits::ones(alloc, at.len());
        }
        valid.gather(alloc, at)
    }

    // The same where there may be no value at a place.
    fn validity_or_null(&self, alloc: Global, at: &[u64]) -> Result<Bits, NoMemory>
        ensures { IfOk result (λ bits. bits ≡ map is_some (values_at self.now at.now)) }
    {
        let mut bits = Bits::new(alloc);
        bits.reserve(at.len())?;
        for i in at {
            bits.push(self.is_there(*i))?;
        }
        Ok(bits)
    }

    // Whether there is a value at a place.
    fn is_there(&self, i: u64) -> bool
        ensures { result ≡ is_some (slice_index_or self.now i None) }
    {
        i < self.len() as u64 && self.value_at(i as usize).is_some()
    }
}
