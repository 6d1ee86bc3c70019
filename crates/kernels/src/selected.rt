//! Rows of a batch, lent.
ghost use Rattle.std.specs.Prelude.{◌≡◌, ◌<◌, ◌≤◌, length, take, slice_index, All, MatchOption};
ghost use Rattle.std.specs.List.{range_with_len};

use crate::Selection;
use std::marker::Model;

/// Rows of a batch, each once and in order: the first so many, which costs no list, or those of a list. Contracts see the
/// list.
#[derive(Drop)]
pub struct Rows<'a> {
    listed: &'a [u64],
    is_all: bool,
    count: usize,
}

impl<'a> Model for Rows<'a> {
    ghost use Rattle.std.specs.Prelude.{ℕ, List};
    ghost use Rattle.kernels.specs.Rising.{seen};

    ghost Value = { List ℕ };

    ghost view = { λ rows. seen rows.is_all rows.count rows.listed.now };
}

impl<'a> Rows<'a> {
    /// The first `count` rows.
    pub fn all(count: usize) -> Rows<'a>
        ensures { result ≡ range_with_len 0 count }
    {
        Rows {
            listed: &[],
            is_all: true,
            count,
        }
    }

    /// The rows of the list.
    pub fn listed(rows: &'a [u64]) -> Rows<'a>
        ensures { result ≡ rows.now }
    {
        Rows {
            listed: rows,
            is_all: false,
            count: 0,
        }
    }

    /// The rows of the selection in a batch of so many: one of all of them is seen as such, and its list isn't read.
    pub fn of(on: &'a Selection, count: usize) -> Rows<'a>
        requires { All (λ row. row < count) on.now.rows.items }
        ensures { result ≡ on.now.rows.items }
    {
        if on.rows.len() == count {
            return Rows::all(count);
        }
        Rows::listed(&on.rows)
    }

    pub fn len(&self) -> usize
        ensures { result ≡ length self.now }
    {
        if self.is_all {
            self.count
        } else {
            self.listed.len()
        }
    }

    pub fn row_at(&self, i: usize) -> u64
        requires { i < length self.now }
        ensures { result ≡ slice_index self.now i }
    {
        if self.is_all {
            i as u64
        } else {
            self.listed[i]
        }
    }

    /// The list, unless these are the first rows.
    pub fn list(&self) -> Option<&'a [u64]>
        ensures { MatchOption result (self.now ≡ range_with_len 0 (length self.now)) (λ list. list.now ≡ self.now) }
    {
        if self.is_all { None } else { Some(self.listed) }
    }

    /// The first `n` of them.
    pub fn first(&self, n: usize) -> Rows<'a>
        requires { n ≤ length self.now }
        ensures { result ≡ take n self.now }
    {
        if self.is_all {
            Rows::all(n)
        } else {
            Rows::listed(&self.listed[..n])
        }
    }
}
