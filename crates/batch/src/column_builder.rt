// A column that grows at its end.
ghost use Rattle.std.specs.Prelude.{◌≡◌, ◌≤◌, ◌++◌, ◌∷◌, [], length, IfOk, OnOk, OnErr};
ghost use Rattle.std.specs.List.{slice_range};
ghost use Rattle.sub_types.specs.Kind.{IsKind};
ghost use Rattle.sub_types.specs.Value.{InKind};
ghost use Rattle.batch.specs.Column.{column_values};
ghost use Rattle.batch.specs.Lent.{lent};

use crate::data_builder::DataBuilder;
use crate::{Column, ColumnView, Storage};
use std::alloc::Global;
use std::marker::Model;
use sub_types::{NoMemory, Ty, Value};

/// A column that grows at its end. Contracts see its type and the values so far.
#[derive(Debug, Drop)]
pub struct ColumnBuilder {
    ty: Ty,
    values: DataBuilder,
}

impl Model for ColumnBuilder {
    ghost use Rattle.batch.specs.Growing.{Growing, growing, IsGrowing};

    ghost Value = { Growing };

    ghost view = { λ builder. growing builder.ty builder.values };

    ghost invariant = { λ builder. IsGrowing builder.ty builder.values };
}

impl ColumnBuilder {
    /// No values of this type. It takes no memory.
    pub fn new(alloc: Global, ty: Ty) -> ColumnBuilder
        requires { IsKind ty.kind }
        ensures ty { result.ty ≡ ty }
        ensures values { result.values ≡ [] }
    {
        ColumnBuilder {
            ty,
            values: DataBuilder::new(alloc, Storage::of_kind(ty.kind)),
        }
    }

    /// No values of this type, with room for so many. Texts and binaries have no room for their bytes.
    pub fn with_capacity(alloc: Global, ty: Ty, n: usize) -> Result<ColumnBuilder, NoMemory>
        requires { IsKind ty.kind }
        ensures ty { IfOk result (λ builder. builder.ty ≡ ty) }
        ensures values { IfOk result (λ builder. builder.values ≡ []) }
    {
        Ok(ColumnBuilder {
            ty,
            values: DataBuilder::with_capacity(alloc, Storage::of_kind(ty.kind), n)?,
        })
    }

    /// Adds one at the end.
    pub fn push(&mut self, value: &Value) -> Result<(), NoMemory>
        requires { InKind self.old.ty.kind value.now }
        ensures ok { OnOk result (self.new.values ≡ self.old.values ++ value.now ∷ []) }
        ensures ty { self.new.ty ≡ self.old.ty }
        ensures err { OnErr result (self.new ≡ self.old) }
    {
        self.values.push(value)
    }

    /// Adds the values of `more` from `from` to before `to` at the end.
    pub fn append(&mut self, more: &Column, from: usize, to: usize) -> Result<(), NoMemory>
        requires alike { more.now.ty.kind ≡ self.old.ty.kind }
        requires rising { from ≤ to }
        requires within { to ≤ length (column_values more.now) }
        ensures ok { OnOk result (self.new.values ≡ self.old.values ++ slice_range (column_values more.now) from to) }
        ensures ty { self.new.ty ≡ self.old.ty }
        ensures err { OnErr result (self.new ≡ self.old) }
    {
        self.values.append(&more.values, from, to)
    }

    /// Adds the values of a lent column at the end.
    pub fn extend(&mut self, more: &ColumnView<'_>) -> Result<(), NoMemory>
        requires { more.now.ty.kind ≡ self.old.ty.kind }
        ensures ok { OnOk result (self.new.values ≡ self.old.values ++ lent more.now.values) }
        ensures ty { self.new.ty ≡ self.old.ty }
        ensures err { OnErr result (self.new ≡ self.old) }
    {
        self.values.extend(&more.values)
    }

    /// The column of all that was added.
    pub fn finish(self) -> Column
        ensures ty { result.ty ≡ self.ty }
        ensures values { column_values result ≡ self.values }
    {
        Column {
            ty: self.ty,
            values: self.values.finish(),
        }
    }
}
