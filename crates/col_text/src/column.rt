// A column of texts or binaries (Arrow columnar format, variable-size binary layout).
ghost use Rattle.std.specs.Prelude.{◌≡◌, ◌↔◌, ℕ, ◌+◌, ◌%◌, ◌^◌, ◌<◌, ◌≤◌, ◌∷◌, ◌++◌, List, [], None, length, vec_len, map, is_some, slice_index_or, option_copied, replicate, OnOk, OnErr, IfOk, IsTrue};
ghost use Rattle.std.specs.List.{concat, slice_range};
ghost use Rattle.sub_types.specs.Slots.{slots};
ghost use Rattle.sub_types.specs.Optional.{optional};
ghost use Rattle.col_text.specs.Text.{ends_of, offset_of, pieces, AreParts};

use crate::{Ends, TextView};
use std::alloc::Global;
use std::marker::Model;
use sub_types::{Bits, NoMemory};

/// A column of texts or binaries. Contracts see its list of optional byte lists.
#[derive(Debug, Drop)]
pub struct TextCol {
    ends: Ends,
    bytes: Vec<u8>,
    valid: Bits,
}

impl Model for TextCol {
    ghost use Rattle.std.specs.Prelude.{ℕ, List, Option};
    ghost use Rattle.sub_types.specs.Optional.{optional};
    ghost use Rattle.col_text.specs.Text.{pieces, HoldsTexts};

    ghost Value = { List (Option (List ℕ)) };

    ghost view = { λ column. optional (pieces 0 column.ends column.bytes.items) column.valid };

    ghost invariant = { λ column. HoldsTexts (optional (pieces 0 column.ends column.bytes.items) column.valid) column.ends column.bytes.items column.valid };
}

impl TextCol {
    /// No values. It takes no memory.
    pub(crate) fn new(alloc: Global) -> TextCol
        ensures { result ≡ [] }
    {
        TextCol {
            ends: Ends::new(alloc),
            bytes: Vec::new(alloc),
            valid: Bits::new(alloc),
        }
    }

    /// No values, with room for so many and for their bytes.
    pub(crate) fn with_capacity(
        alloc: Global,
        values: usize,
        bytes: usize,
    ) -> Result<TextCol, NoMemory>
        ensures { IfOk result (λ column. column ≡ []) }
    {
        let ends = Ends::with_capacity(alloc, values)?;
        let bytes = Vec::with_capacity(alloc, bytes)?;
        let mut valid = Bits::new(alloc);
        valid.reserve(values)?;
        Ok(TextCol { ends, bytes, valid })
    }

    /// `n` times the same value.
    pub fn constant(alloc: Global, value: Option<&[u8]>, n: usize) -> Result<TextCol, NoMemory>
        ensures { IfOk result (λ column. column ≡ replicate n (option_copied value.entry)) }
    {
        let mut one = TextCol::new(alloc);
        one.push(value)?;
        one.view().gather(alloc, &vec![in alloc; 0; n]?)
    }

    /// The column of these texts: where each ends, their bytes one behind the other, and which are there. It takes
    /// no memory, so each end keeps its eight bytes.
    pub fn from_parts(ends: Vec<usize>, bytes: Vec<u8>, valid: Bits) -> TextCol
        requires { AreParts ends.items bytes.items valid }
        ensures { result ≡ optional (pieces 0 ends.items bytes.items) valid }
    {
        TextCol::from_ends(Ends::from_wide(ends), bytes, valid)
    }

    /// The same of ends that take four bytes each where they can. It takes no memory.
    pub fn from_ends(ends: Ends, bytes: Vec<u8>, valid: Bits) -> TextCol
        requires { AreParts ends bytes.items valid }
        ensures { result ≡ optional (pieces 0 ends bytes.items) valid }
    {
        TextCol { ends, bytes, valid }
    }

    pub fn len(&self) -> usize
        ensures { result ≡ length self.now }
    {
        self.ends.len()
    }

    pub fn is_empty(&self) -> bool
        ensures { IsTrue result ↔ (self.now ≡ []) }
    {
        self.len() == 0
    }

    /// The whole column, lent.
    pub fn view(&self) -> TextView<'_>
        ensures { result ≡ self.now }
    {
        TextView::of(self)
    }

    pub fn value_at(&self, i: usize) -> Option<&[u8]>
        requires { i < length self.now }
        ensures { option_copied result ≡ slice_index_or self.now i None }
    {
        let _count = self.len();
        if self.valid.get(i) {
            return Some(self.bytes_between(i, i + 1));
        }
        None
    }

    /// Where in the bytes the value at `i` begins, and behind the last where the bytes end.
    pub fn offset(&self, i: usize) -> usize
        requires { i ≤ length self.now }
        ensures { result ≡ offset_of (slots [] self.now) i }
    {
        if i == 0 {
            return 0;
        }
        self.ends.get(i - 1)
    }

    /// Where the bytes of the values from `from` to before `to` begin and end.
    pub(crate) fn extent(&self, from: usize, to: usize) -> (usize, usize)
        requires rising { from ≤ to }
        requires within { to ≤ length self.now }
        ensures begin { result.0 ≡ offset_of (slots [] self.now) from }
        ensures end { result.1 ≡ offset_of (slots [] self.now) to }
        ensures rising { result.0 ≤ result.1 }
        ensures within { result.1 ≤ length (concat (slots [] self.now)) }
    {
        (self.offset(from), self.offset(to))
    }

    /// Where the values end, if the first of them begins at 0.
    pub fn ends(&self) -> &Ends
        ensures { result.now ≡ ends_of 0 (slots [] self.now) }
    {
        &self.ends
    }

    /// The bytes of the values from `from` to before `to`, one behind the other. A null has none.
    pub fn bytes_between(&self, from: usize, to: usize) -> &[u8]
        requires rising { from ≤ to }
        requires within { to ≤ length self.now }
        ensures { result.now ≡ concat (slice_range (slots [] self.now) from to) }
    {
        let (begin, end) = self.extent(from, to);
        &self.bytes()[begin..end]
    }

    /// The bytes of all values, one behind the other. A null has none.
    pub fn bytes(&self) -> &[u8]
        ensures { result.now ≡ concat (slots [] self.now) }
    {
        &self.bytes
    }

    /// Which values are there.
    pub fn validity(&self) -> &Bits
        ensures { result.now ≡ map is_some self.now }
    {
        &self.valid
    }

    /// Adds one at the end.
    pub(crate) fn push(&mut self, value: Option<&[u8]>) -> Result<(), NoMemory>
        ensures ok { OnOk result (self.new ≡ self.old ++ option_copied value.entry ∷ []) }
        ensures err { OnErr result (self.new ≡ self.old) }
    {
        let before = self.bytes.len();
        let is_valid = value.is_some();
        self.bytes.extend_from_slice(value.unwrap_or(&[]))?;
        let end = self.bytes.len();
        if let Err(NoMemory) = push_end(&mut self.ends, &mut self.valid, end, is_valid) {
            self.bytes.truncate(before);
            return Err(NoMemory);
        }
        Ok(())
    }

    /// Adds the values of a column, or of a part of one, at the end.
    pub(crate) fn append(&mut self, more: &TextView<'_>) -> Result<(), NoMemory>
        ensures ok { OnOk result (self.new ≡ self.old ++ more.now) }
        ensures err { OnErr result (self.new ≡ self.old) }
    {
        let before = self.bytes.len();
        let count = self.ends.len();
        self.bytes.extend_from_slice(more.bytes())?;
        if let Err(NoMemory) = more.add_ends(&mut self.ends, before) {
            self.bytes.truncate(before);
            return Err(NoMemory);
        }
        let (valid, from, to) = more.validity();
        if let Err(NoMemory) = self.valid.append(valid, from, to) {
            self.bytes.truncate(before);
            self.ends.truncate(count);
            return Err(NoMemory);
        }
        Ok(())
    }
}

// Adds where one more value ends, and whether it is there.
fn push_end(ends: &mut Ends, valid: &mut Bits, end: usize, is_valid: bool) -> Result<(), NoMemory>
    ensures ok_end { OnOk result (ends.new ≡ ends.old ++ end ∷ []) }
    ensures ok_valid { OnOk result (valid.new ≡ valid.old ++ is_valid ∷ []) }
    ensures err_end { OnErr result (ends.new ≡ ends.old) }
    ensures err_valid { OnErr result (valid.new ≡ valid.old) }
{
    let count = ends.len();
    ends.push(end)?;
    if let Err(NoMemory) = valid.push(is_valid) {
        ends.truncate(count);
        return Err(NoMemory);
    }
    Ok(())
}
