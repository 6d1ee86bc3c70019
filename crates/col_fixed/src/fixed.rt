// A column of numbers (Arrow columnar format, fixed-size primitive layout).
ghost use Rattle.std.specs.Prelude.{◌≡◌, ◌↔◌, ◌+◌, ◌*◌, ◌<◌, ◌==◌, ◌∷◌, ◌++◌, List, [], Some, None, length, vec_len, map, replicate, is_some, slice_index_or, All, IfOk, OnOk, OnErr, IsTrue};
ghost use Rattle.std.specs.Int.{bit_at};
ghost use Rattle.sub_types.specs.Bits.{bits_of};
ghost use Rattle.sub_types.specs.Optional.{optional};
ghost use Rattle.sub_types.specs.Slots.{slots};
ghost use Rattle.col_fixed.specs.Column.{IsColumn, IsClearedBelow};

use crate::{Native, View};
use std::alloc::Global;
use std::marker::Model;
use sub_types::{Bits, NoMemory};

/// A column of numbers. Contracts see its list of optional values.
#[derive(Debug, Drop)]
pub struct Fixed<T: Native> {
    values: Vec<T>,
    valid: Bits,
}

impl<T: Native> Model for Fixed<T> {
    ghost use Rattle.std.specs.Prelude.{List, Option};
    ghost use Rattle.sub_types.specs.Optional.{optional};
    ghost use Rattle.col_fixed.specs.Column.{IsColumn};

    ghost Value = { List (Option T) };

    ghost view = { λ column. optional column.values.items column.valid };

    ghost invariant = { λ column. IsColumn T.zero column.values.items column.valid };
}

impl<T: Native> Fixed<T> {
    /// No values. It takes no memory.
    pub(crate) fn new(alloc: Global) -> Fixed<T>
        ensures { result ≡ [] }
    {
        Fixed {
            values: Vec::new(alloc),
            valid: Bits::new(alloc),
        }
    }

    /// No values, and room for so many.
    pub(crate) fn with_capacity(alloc: Global, n: usize) -> Result<Fixed<T>, NoMemory>
        ensures { IfOk result (λ column. column ≡ []) }
    {
        let values = Vec::with_capacity(alloc, n)?;
        let mut valid = Bits::new(alloc);
        valid.reserve(n)?;
        Ok(Fixed { values, valid })
    }

    /// The values whose bit is true, and null for the others.
    pub fn from_parts(values: Vec<T>, valid: Bits) -> Fixed<T>
        requires { vec_len values ≡ length valid }
        ensures { result ≡ optional values.items valid }
    {
        if are_full(valid.bytes()) {
            return Fixed { values, valid };
        }
        let mut values = values;
        clear_nulls(&mut values, &valid);
        Fixed { values, valid }
    }

    /// The same, where zero already stands in the slots whose bit isn't true.
    pub fn from_zeroed(values: Vec<T>, valid: Bits) -> Fixed<T>
        requires { IsColumn T.zero values.items valid }
        ensures { result ≡ optional values.items valid }
    {
        Fixed { values, valid }
    }

    /// These values, and no null.
    pub fn all_valid(values: Vec<T>) -> Result<Fixed<T>, NoMemory>
        ensures { IfOk result (λ column. column ≡ map (λ value. Some value) values.items) }
    {
        let valid = Bits::ones(*values.allocator(), values.len())?;
        Ok(Fixed { values, valid })
    }

    /// `n` times the value, or null.
    pub fn constant(alloc: Global, value: Option<T>, n: usize) -> Result<Fixed<T>, NoMemory>
        ensures { IfOk result (λ column. column ≡ replicate n value) }
    {
        let Some(value) = value else {
            let values = repeated(alloc, T::zero(), n)?;
            let valid = Bits::zeros(alloc, n)?;
            return Ok(Fixed { values, valid });
        };
        let values = repeated(alloc, value, n)?;
        let valid = Bits::ones(alloc, n)?;
        Ok(Fixed { values, valid })
    }

    pub fn len(&self) -> usize
        ensures { result ≡ length self.now }
    {
        self.values.len()
    }

    pub fn is_empty(&self) -> bool
        ensures { IsTrue result ↔ (self.now ≡ []) }
    {
        self.values.is_empty()
    }

    /// The whole column, lent.
    pub fn view(&self) -> View<'_, T>
        ensures { result ≡ self.now }
    {
        View::of(self)
    }

    pub fn value_at(&self, i: usize) -> Option<T>
        requires { i < length self.now }
        ensures { result ≡ slice_index_or self.now i None }
    {
        if self.valid.get(i) {
            return Some(self.values[i]);
        }
        None
    }

    /// The buffer of values: zero stands where there is none.
    pub fn values(&self) -> &[T]
        ensures { result.now ≡ slots T.zero self.now }
    {
        &self.values
    }

    /// Which values are there.
    pub fn validity(&self) -> &Bits
        ensures { result.now ≡ map is_some self.now }
    {
        &self.valid
    }

    /// Adds one at the end.
    pub(crate) fn push(&mut self, value: Option<T>) -> Result<(), NoMemory>
        ensures ok { OnOk result (self.new ≡ self.old ++ value ∷ []) }
        ensures err { OnErr result (self.new ≡ self.old) }
    {
        self.values.push(value.unwrap_or(T::zero()))?;
        if let Err(NoMemory) = self.valid.push(value.is_some()) {
            let _ = self.values.pop();
            return Err(NoMemory);
        }
        Ok(())
    }

    /// Adds the values of a column, or of a part of one, at the end.
    pub(crate) fn append(&mut self, more: &View<'_, T>) -> Result<(), NoMemory>
        ensures ok { OnOk result (self.new ≡ self.old ++ more.now) }
        ensures err { OnErr result (self.new ≡ self.old) }
    {
        let before = self.values.len();
        self.values.extend_from_slice(more.values())?;
        let (valid, from, to) = more.validity();
        if let Err(NoMemory) = self.valid.append(valid, from, to) {
            self.values.truncate(before);
            return Err(NoMemory);
        }
        Ok(())
    }
}

// `n` times the value.
fn repeated<T: Native>(alloc: Global, value: T, n: usize) -> Result<Vec<T>, NoMemory>
    ensures { IfOk result (λ values. values.items ≡ replicate n value) }
{
    let mut values = Vec::with_capacity(alloc, n)?;
    for _i in 0..n {
        values.push_reserved(value);
    }
    Ok(values)
}

// Whether each byte is 255, which says of eight values that they are there.
fn are_full(bytes: &[u8]) -> bool
    ensures { IsTrue result → All (λ byte. byte ≡ 255) bytes.now }
{
    let mut all = 255;
    for byte in bytes {
        all &= *byte;
    }
    all == 255
}

// Puts zero into the slots that aren't valid. A byte of 255 says that eight are, and is skipped.
fn clear_nulls<T: Native>(values: &mut Vec<T>, valid: &Bits)
    requires { vec_len values.old ≡ length valid.now }
    ensures column { IsColumn T.zero values.new.items valid.now }
    ensures same { optional values.new.items valid.now ≡ optional values.old.items valid.now }
{
    let bytes = valid.bytes();
    'bytes: for place in 0..bytes.len() {
        if bytes[place] != 255 {
            clear_eight(values, valid, bytes, place);
        }
    }
}

// Puts zero into those of the eight slots of a byte of `bytes`, which are the bits of `valid`, that aren't valid.
fn clear_eight<T: Native>(values: &mut Vec<T>, valid: &Bits, bytes: &[u8], place: usize)
    requires long { vec_len values.old ≡ length valid.now }
    requires bits { bits_of (length valid.now) bytes.now ≡ valid.now }
    requires within { place < length bytes.now }
    requires below { 8 * place < length valid.now }
    ensures { (start : List T) → IsClearedBelow T.zero start values.old.items valid.now (8 * place)
        → IsClearedBelow T.zero start values.new.items valid.now (8 * place + 8) }
{
    let byte = bytes[place];
    let from = 8 * place;
    let rest = valid.len() - from;
    let to = if rest < 8 { valid.len() } else { from + 8 };
    for i in from..to {
        if !is_set(byte, i % 8) {
            values[i] = T::zero();
        }
    }
}

fn is_set(byte: u8, place: usize) -> bool
    requires { place < 8 }
    ensures { result ≡ (bit_at byte place == 1) }
{
    byte >> place & 1 == 1
}
