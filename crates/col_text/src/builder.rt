// A column of texts or binaries that grows at its end.
ghost use Rattle.std.specs.Prelude.{◌≡◌, ◌∷◌, ◌++◌, [], option_copied, OnOk, OnErr, IfOk};

use crate::{TextCol, TextView};
use std::alloc::Global;
use std::marker::Model;
use sub_types::NoMemory;

/// A column of texts or binaries that grows at its end. Contracts see the list of optional byte lists so far.
#[derive(Debug, Drop)]
pub struct TextBuilder {
    column: TextCol,
}

impl Model for TextBuilder {
    ghost use Rattle.std.specs.Prelude.{ℕ, List, Option};

    ghost Value = { List (Option (List ℕ)) };

    ghost view = { λ builder. builder.column };
}

impl TextBuilder {
    /// No values. It takes no memory.
    pub fn new(alloc: Global) -> TextBuilder
        ensures { result ≡ [] }
    {
        TextBuilder {
            column: TextCol::new(alloc),
        }
    }

    /// No values, with room for so many and for their bytes.
    pub fn with_capacity(
        alloc: Global,
        values: usize,
        bytes: usize,
    ) -> Result<TextBuilder, NoMemory>
        ensures { IfOk result (λ builder. builder ≡ []) }
    {
        Ok(TextBuilder {
            column: TextCol::with_capacity(alloc, values, bytes)?,
        })
    }

    /// Adds one at the end.
    pub fn push(&mut self, value: Option<&[u8]>) -> Result<(), NoMemory>
        ensures ok { OnOk result (self.new ≡ self.old ++ option_copied value.entry ∷ []) }
        ensures err { OnErr result (self.new ≡ self.old) }
    {
        self.column.push(value)
    }

    /// Adds the values of a column, or of a part of one, at the end.
    pub fn append(&mut self, more: &TextView<'_>) -> Result<(), NoMemory>
        ensures ok { OnOk result (self.new ≡ self.old ++ more.now) }
        ensures err { OnErr result (self.new ≡ self.old) }
    {
        self.column.append(more)
    }

    /// The column of all that was added.
    pub fn finish(self) -> TextCol
        ensures { result ≡ self }
    {
        self.column
    }
}
