// A column of numbers that grows at its end.
ghost use Rattle.std.specs.Prelude.{◌≡◌, ◌∷◌, ◌++◌, [], IfOk, OnOk, OnErr};

use crate::{Fixed, Native, View};
use std::alloc::Global;
use std::marker::Model;
use sub_types::NoMemory;

/// A column of numbers that grows at its end. Contracts see the list of optional values so far.
#[derive(Debug, Drop)]
pub struct FixedBuilder<T: Native> {
    column: Fixed<T>,
}

impl<T: Native> Model for FixedBuilder<T> {
    ghost use Rattle.std.specs.Prelude.{List, Option};

    ghost Value = { List (Option T) };

    ghost view = { λ builder. builder.column };
}

impl<T: Native> FixedBuilder<T> {
    /// No values. It takes no memory.
    pub fn new(alloc: Global) -> FixedBuilder<T>
        ensures { result ≡ [] }
    {
        FixedBuilder {
            column: Fixed::new(alloc),
        }
    }

    /// No values, and room for so many.
    pub fn with_capacity(alloc: Global, n: usize) -> Result<FixedBuilder<T>, NoMemory>
        ensures { IfOk result (λ builder. builder ≡ []) }
    {
        Ok(FixedBuilder {
            column: Fixed::with_capacity(alloc, n)?,
        })
    }

    /// Adds one at the end.
    pub fn push(&mut self, value: Option<T>) -> Result<(), NoMemory>
        ensures ok { OnOk result (self.new ≡ self.old ++ value ∷ []) }
        ensures err { OnErr result (self.new ≡ self.old) }
    {
        self.column.push(value)
    }

    /// Adds the values of a column, or of a part of one, at the end.
    pub fn append(&mut self, more: &View<'_, T>) -> Result<(), NoMemory>
        ensures ok { OnOk result (self.new ≡ self.old ++ more.now) }
        ensures err { OnErr result (self.new ≡ self.old) }
    {
        self.column.append(more)
    }

    /// The column of all that was added.
    pub fn finish(self) -> Fixed<T>
        ensures { result ≡ self }
    {
        self.column
    }
}
