// A column of truth values, or a part of one, lent without a copy.
ghost use Rattle.std.specs.Prelude.{◌≡◌, ◌↔◌, ◌<◌, ◌≤◌, [], None, false, length, map, is_some, slice_index_or, All, IfOk, IsTrue};
ghost use Rattle.std.specs.List.{slice_range};
ghost use Rattle.sub_types.specs.Slots.{slots};

use crate::BoolCol;
use crate::gathered_bits::{gather_bits, gather_validity};
use std::alloc::Global;
use std::marker::Model;
use sub_types::{Bits, NoMemory};

/// A column of truth values, or a part of one. Contracts see its list of optional values.
#[derive(Drop)]
pub struct BoolView<'a> {
    column: &'a BoolCol,
    from: usize,
    len: usize,
}

impl<'a> Model for BoolView<'a> {
    ghost use Rattle.std.specs.Prelude.{◌+◌, List, Option, Bool};
    ghost use Rattle.std.specs.List.{slice_range};
    ghost use Rattle.sub_types.specs.Part.{IsPart};

    ghost Value = { List (Option Bool) };

    ghost view = { λ part. slice_range part.column.now part.from (part.from + part.len) };

    ghost invariant = { λ part. IsPart part.from part.len part.column.now };
}

impl<'a> BoolView<'a> {
    /// The whole column.
    pub fn of(column: &'a BoolCol) -> BoolView<'a>
        ensures { result ≡ column.now }
    {
        BoolView {
            column,
            from: 0,
            len: column.len(),
        }
    }

    pub fn len(&self) -> usize
        ensures { result ≡ length self.now }
    {
        self.len
    }

    pub fn is_empty(&self) -> bool
        ensures { IsTrue result ↔ (self.now ≡ []) }
    {
        self.len == 0
    }

    /// The values from `from` to before `to`.
    pub fn part(&self, from: usize, to: usize) -> BoolView<'a>
        requires rising { from ≤ to }
        requires within { to ≤ length self.now }
        ensures { result ≡ slice_range self.now from to }
    {
        BoolView {
            column: self.column,
            from: self.from + from,
            len: to - from,
        }
    }

    pub fn value_at(&self, i: usize) -> Option<bool>
        requires { i < length self.now }
        ensures { result ≡ slice_index_or self.now i None }
    {
        self.column.value_at(self.from + i)
    }

    /// The values (false where there is none) and which of them are there: the bits of the column, and
    /// from where to where they are this view's.
    pub fn parts(&self) -> (&'a Bits, &'a Bits, usize, usize)
        ensures rising { result.2 ≤ result.3 }
        ensures within_values { result.3 ≤ length result.0.now }
        ensures within_validity { result.3 ≤ length result.1.now }
        ensures values { slice_range result.0.now result.2 result.3 ≡ slots false self.now }
        ensures validity { slice_range result.1.now result.2 result.3 ≡ map is_some self.now }
    {
        (
            self.column.values(),
            self.column.validity(),
            self.from,
            self.from + self.len,
        )
    }

    /// The values at these places, in this order.
    pub fn gather(&self, alloc: Global, at: &[u64]) -> Result<BoolCol, NoMemory>
        requires { All (λ i. i < length self.now) at.now }
        ensures { IfOk result (λ column. column ≡ map (λ i. slice_index_or self.now i None) at.now) }
    {
        let (values, valid, from, to) = self.parts();
        let values = gather_bits(alloc, values, from, to, at)?;
        let valid = gather_validity(alloc, valid, from, to, at)?;
        Ok(BoolCol::from_zeroed(values, valid))
    }
}
