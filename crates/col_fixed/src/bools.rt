// A column of truth values (Arrow columnar format, fixed-size primitive layout of one bit a value).
ghost use Rattle.std.specs.Prelude.{◌≡◌, ◌↔◌, ◌<◌, ◌∷◌, ◌++◌, [], None, false, length, map, replicate, is_some, slice_index_or, IfOk, OnOk, OnErr, IsTrue};
ghost use Rattle.sub_types.specs.Optional.{optional};
ghost use Rattle.sub_types.specs.Slots.{slots};
ghost use Rattle.col_fixed.specs.Column.{IsColumn};

use crate::BoolView;
use std::alloc::Global;
use std::marker::Model;
use sub_types::{Bits, NoMemory};

/// A column of truth values. Contracts see its list of optional values.
#[derive(Debug, Drop)]
pub struct BoolCol {
    values: Bits,
    valid: Bits,
}

impl Model for BoolCol {
    ghost use Rattle.std.specs.Prelude.{List, Option, Bool, false};
    ghost use Rattle.sub_types.specs.Optional.{optional};
    ghost use Rattle.col_fixed.specs.Column.{IsColumn};

    ghost Value = { List (Option Bool) };

    ghost view = { λ column. optional column.values column.valid };

    ghost invariant = { λ column. IsColumn false column.values column.valid };
}

impl BoolCol {
    /// No values. It takes no memory.
    pub(crate) fn new(alloc: Global) -> BoolCol
        ensures { result ≡ [] }
    {
        BoolCol {
            values: Bits::new(alloc),
            valid: Bits::new(alloc),
        }
    }

    /// No values, and room for so many.
    pub(crate) fn with_capacity(alloc: Global, n: usize) -> Result<BoolCol, NoMemory>
        ensures { IfOk result (λ column. column ≡ []) }
    {
        let mut column = BoolCol::new(alloc);
        column.values.reserve(n)?;
        column.valid.reserve(n)?;
        Ok(column)
    }

    /// The values whose bit in `valid` is true, and null for the others.
    pub fn from_parts(values: Bits, valid: Bits) -> BoolCol
        requires { length values ≡ length valid }
        ensures { result ≡ optional values valid }
    {
        let mut values = values;
        values.mask(&valid);
        BoolCol { values, valid }
    }

    /// The same, where false already stands where the bit in `valid` isn't true.
    pub fn from_zeroed(values: Bits, valid: Bits) -> BoolCol
        requires { IsColumn false values valid }
        ensures { result ≡ optional values valid }
    {
        BoolCol { values, valid }
    }

    /// `n` times the truth value, or null.
    pub fn constant(alloc: Global, value: Option<bool>, n: usize) -> Result<BoolCol, NoMemory>
        ensures { IfOk result (λ column. column ≡ replicate n value) }
    {
        let Some(value) = value else {
            let values = Bits::zeros(alloc, n)?;
            let valid = Bits::zeros(alloc, n)?;
            return Ok(BoolCol { values, valid });
        };
        let values = repeated(alloc, value, n)?;
        let valid = Bits::ones(alloc, n)?;
        Ok(BoolCol { values, valid })
    }

    pub fn len(&self) -> usize
        ensures { result ≡ length self.now }
    {
        self.values.len()
    }

    pub fn is_empty(&self) -> bool
        ensures { IsTrue result ↔ (self.now ≡ []) }
    {
        self.values.is_empty()
    }

    /// The whole column, lent.
    pub fn view(&self) -> BoolView<'_>
        ensures { result ≡ self.now }
    {
        BoolView::of(self)
    }

    pub fn value_at(&self, i: usize) -> Option<bool>
        requires { i < length self.now }
        ensures { result ≡ slice_index_or self.now i None }
    {
        if self.valid.get(i) {
            return Some(self.values.get(i));
        }
        None
    }

    /// The buffer of values: false stands where there is none.
    pub fn values(&self) -> &Bits
        ensures { result.now ≡ slots false self.now }
    {
        &self.values
    }

    /// Which values are there.
    pub fn validity(&self) -> &Bits
        ensures { result.now ≡ map is_some self.now }
    {
        &self.valid
    }

    /// Adds one at the end.
    pub(crate) fn push(&mut self, value: Option<bool>) -> Result<(), NoMemory>
        ensures ok { OnOk result (self.new ≡ self.old ++ value ∷ []) }
        ensures err { OnErr result (self.new ≡ self.old) }
    {
        let before = self.values.len();
        self.values.push(value.unwrap_or(false))?;
        if let Err(NoMemory) = self.valid.push(value.is_some()) {
            self.values.truncate(before);
            return Err(NoMemory);
        }
        Ok(())
    }

    /// Adds the values of a column, or of a part of one, at the end.
    pub(crate) fn append(&mut self, more: &BoolView<'_>) -> Result<(), NoMemory>
        ensures ok { OnOk result (self.new ≡ self.old ++ more.now) }
        ensures err { OnErr result (self.new ≡ self.old) }
    {
        let before = self.values.len();
        let (values, valid, from, to) = more.parts();
        self.values.append(values, from, to)?;
        if let Err(NoMemory) = self.valid.append(valid, from, to) {
            self.values.truncate(before);
            return Err(NoMemory);
        }
        Ok(())
    }
}

// `n` times the truth value.
fn repeated(alloc: Global, value: bool, n: usize) -> Result<Bits, NoMemory>
    ensures { IfOk result (λ values. values ≡ replicate n value) }
{
    if value {
        return Ok(Bits::ones(alloc, n)?);
    }
    Ok(Bits::zeros(alloc, n)?)
}
