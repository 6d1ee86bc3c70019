// A column of numbers, or a part of one, lent without a copy.
ghost use Rattle.std.specs.Prelude.{◌≡◌, ◌↔◌, ◌<◌, ◌≤◌, [], None, length, map, is_some, slice_index_or, All, IfOk, IsTrue};
ghost use Rattle.std.specs.List.{slice_range};
ghost use Rattle.sub_types.specs.Rows.{picked};
ghost use Rattle.sub_types.specs.Slots.{slots};

use crate::gathered_bits::gather_validity;
use crate::{Fixed, Native};
use std::alloc::Global;
use std::marker::Model;
use sub_types::{Bits, NoMemory};

/// A column of numbers, or a part of one. Contracts see its list of optional values.
#[derive(Drop)]
pub struct View<'a, T: Native> {
    column: &'a Fixed<T>,
    from: usize,
    len: usize,
}

impl<'a, T: Native> Model for View<'a, T> {
    ghost use Rattle.std.specs.Prelude.{◌+◌, ◌<◌, ◌≤◌, ◌^◌, List, Option, length};
    ghost use Rattle.std.specs.List.{slice_range};
    ghost use Rattle.sub_types.specs.Part.{IsPart};

    ghost Value = { List (Option T) };

    ghost view = { λ part. slice_range part.column.now part.from (part.from + part.len) };

    ghost invariant = { λ part. IsPart part.from part.len part.column.now };
}

impl<'a, T: Native> View<'a, T> {
    /// The whole column.
    pub fn of(column: &'a Fixed<T>) -> View<'a, T>
        ensures { result ≡ column.now }
    {
        View {
            column,
            from: 0,
            len: column.len(),
        }
    }

    pub fn len(&self) -> usize
        ensures { result ≡ length self.now }
    {
        self.len
    }

    pub fn is_empty(&self) -> bool
        ensures { IsTrue result ↔ (self.now ≡ []) }
    {
        self.len == 0
    }

    /// The values from `from` to before `to`.
    pub fn part(&self, from: usize, to: usize) -> View<'a, T>
        requires rising { from ≤ to }
        requires within { to ≤ length self.now }
        ensures { result ≡ slice_range self.now from to }
    {
        View {
            column: self.column,
            from: self.from + from,
            len: to - from,
        }
    }

    pub fn value_at(&self, i: usize) -> Option<T>
        requires { i < length self.now }
        ensures { result ≡ slice_index_or self.now i None }
    {
        self.column.value_at(self.from + i)
    }

    /// The buffer of values: zero stands where there is none.
    pub fn values(&self) -> &'a [T]
        ensures { result.now ≡ slots T.zero self.now }
    {
        &self.column.values()[self.from..self.from + self.len]
    }

    /// Which values are there: the bits of the column, and from where to where they are this view's.
    pub fn validity(&self) -> (&'a Bits, usize, usize)
        ensures rising { result.1 ≤ result.2 }
        ensures within { result.2 ≤ length result.0.now }
        ensures bits { slice_range result.0.now result.1 result.2 ≡ map is_some self.now }
    {
        (self.column.validity(), self.from, self.from + self.len)
    }

    /// The values at these places, in this order.
    pub fn gather(&self, alloc: Global, at: &[u64]) -> Result<Fixed<T>, NoMemory>
        requires { All (λ i. i < length self.now) at.now }
        ensures { IfOk result (λ column. column ≡ map (λ i. slice_index_or self.now i None) at.now) }
    {
        let values = gather_values(alloc, self.values(), at)?;
        let (valid, from, to) = self.validity();
        let valid = gather_validity(alloc, valid, from, to, at)?;
        Ok(Fixed::from_zeroed(values, valid))
    }
}

// The values at these places, in this order.
fn gather_values<T: Native>(alloc: Global, values: &[T], at: &[u64]) -> Result<Vec<T>, NoMemory>
    requires { All (λ i. i < length values.now) at.now }
    ensures { IfOk result (λ gathered. gathered.items ≡ picked T.zero at.now values.now) }
{
    let mut gathered = Vec::with_capacity(alloc, at.len())?;
    for i in at {
        gathered.push_reserved(values[*i as usize]);
    }
    Ok(gathered)
}
