// What a column can be asked for.
ghost use Rattle.std.specs.Prelude.{◌≡◌, ◌<◌, ◌≤◌, length, map, replicate, slice_index_or, All, IfOk};
ghost use Rattle.std.specs.List.{slice_range};
ghost use Rattle.batch.specs.ColumnValues.{values_of};
ghost use Rattle.batch.specs.Lent.{lent};
ghost use Rattle.sub_types.specs.Kind.{IsKind};
ghost use Rattle.sub_types.specs.Nullable.{bool_value};
ghost use Rattle.sub_types.specs.declared.kind.Kind.TheVariants as kinds;
ghost use Rattle.sub_types.specs.Value.{InKind};
ghost use Rattle.sub_types.specs.Rows.{picked};
ghost use Rattle.sub_types.specs.declared.value.Value.TheVariants.{Null};

use crate::{Column, ColumnBuilder, ColumnData, ColumnView, Storage};
use col_fixed::BoolCol;
use std::alloc::Global;
use sub_types::{NoMemory, Ty, Value};

impl Column {
    /// `n` times the value, as a column of this type.
    pub fn constant(alloc: Global, ty: Ty, value: &Value, n: usize) -> Result<Column, NoMemory>
        requires kind { IsKind ty.kind }
        requires in_kind { InKind ty.kind value.now }
        ensures values { IfOk result (λ column. values_of column.values ≡ replicate n value.now) }
        ensures ty { IfOk result (λ column. column.ty ≡ ty) }
    {
        Ok(Column {
            ty,
            values: ColumnData::constant(alloc, Storage::of_kind(ty.kind), value, n)?,
        })
    }

    /// Truth values as a column of this type, which is one of truth values. It takes no memory.
    pub fn of_truths(ty: Ty, truths: BoolCol) -> Column
        requires { ty.kind ≡ kinds.Bool }
        ensures values { values_of result.values ≡ map bool_value truths }
        ensures ty { result.ty ≡ ty }
    {
        Column {
            ty,
            values: ColumnData::Bool(truths),
        }
    }

    /// The whole column, lent.
    pub fn view(&self) -> ColumnView<'_>
        ensures values { lent result.values ≡ values_of self.now.values }
        ensures ty { result.ty ≡ self.now.ty }
    {
        ColumnView {
            ty: self.ty,
            values: self.values.view(),
        }
    }

    /// The values at these places, in this order.
    pub fn gather(&self, alloc: Global, at: &[u64]) -> Result<Column, NoMemory>
        requires { All (λ i. i < length (values_of self.now.values)) at.now }
        ensures values { IfOk result (λ column. values_of column.values ≡ picked Null at.now (values_of self.now.values)) }
        ensures ty { IfOk result (λ column. column.ty ≡ self.now.ty) }
    {
        self.view().gather(alloc, at)
    }

    /// The values from `from` to before `to`.
    pub fn part(&self, alloc: Global, from: usize, to: usize) -> Result<Column, NoMemory>
        requires rising { from ≤ to }
        requires within { to ≤ length (values_of self.now.values) }
        ensures values { IfOk result (λ column. values_of column.values ≡ slice_range (values_of self.now.values) from to) }
        ensures ty { IfOk result (λ column. column.ty ≡ self.now.ty) }
    {
        let mut builder = ColumnBuilder::new(alloc, self.ty);
        builder.append(self, from, to)?;
        Ok(builder.finish())
    }
}
