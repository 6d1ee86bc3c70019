// A column of truth values that grows at its end.
ghost use Rattle.std.specs.Prelude.{◌≡◌, ◌∷◌, ◌++◌, [], IfOk, OnOk, OnErr};

use crate::{BoolCol, BoolView};
use std::alloc::Global;
use std::marker::Model;
use sub_types::NoMemory;

/// A column of truth values that grows at its end. Contracts see the list of optional values so far.
#[derive(Debug, Drop)]
pub struct BoolBuilder {
    column: BoolCol,
}

impl Model for BoolBuilder {
    ghost use Rattle.std.specs.Prelude.{List, Option, Bool};

    ghost Value = { List (Option Bool) };

    ghost view = { λ builder. builder.column };
}

impl BoolBuilder {
    /// No values. It takes no memory.
    pub fn new(alloc: Global) -> BoolBuilder
        ensures { result ≡ [] }
    {
        BoolBuilder {
            column: BoolCol::new(alloc),
        }
    }

    /// No values, and room for so many.
    pub fn with_capacity(alloc: Global, n: usize) -> Result<BoolBuilder, NoMemory>
        ensures { IfOk result (λ builder. builder ≡ []) }
    {
        Ok(BoolBuilder {
            column: BoolCol::with_capacity(alloc, n)?,
        })
    }

    /// Adds one at the end.
    pub fn push(&mut self, value: Option<bool>) -> Result<(), NoMemory>
        ensures ok { OnOk result (self.new ≡ self.old ++ value ∷ []) }
        ensures err { OnErr result (self.new ≡ self.old) }
    {
        self.column.push(value)
    }

    /// Adds the values of a column, or of a part of one, at the end.
    pub fn append(&mut self, more: &BoolView<'_>) -> Result<(), NoMemory>
        ensures ok { OnOk result (self.new ≡ self.old ++ more.now) }
        ensures err { OnErr result (self.new ≡ self.old) }
    {
        self.column.append(more)
    }

    /// The column of all that was added.
    pub fn finish(self) -> BoolCol
        ensures { result ≡ self }
    {
        self.column
    }
}
