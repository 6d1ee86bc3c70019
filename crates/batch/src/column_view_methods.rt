// What a lent column can be asked for.
ghost use Rattle.std.specs.Prelude.{◌≡◌, ◌<◌, ◌≤◌, length, All, IfOk};
ghost use Rattle.std.specs.List.{slice_range};
ghost use Rattle.batch.specs.ColumnValues.{values_of};
ghost use Rattle.batch.specs.Lent.{lent};
ghost use Rattle.sub_types.specs.Rows.{picked};
ghost use Rattle.sub_types.specs.declared.value.Value.TheVariants.{Null};

use crate::{Column, ColumnView};
use std::alloc::Global;
use sub_types::NoMemory;

impl<'a> ColumnView<'a> {
    /// The values from `from` to before `to`.
    pub fn part(&self, from: usize, to: usize) -> ColumnView<'a>
        requires rising { from ≤ to }
        requires within { to ≤ length (lent self.now.values) }
        ensures values { lent result.values ≡ slice_range (lent self.now.values) from to }
        ensures ty { result.ty ≡ self.now.ty }
    {
        ColumnView {
            ty: self.ty,
            values: self.values.part(from, to),
        }
    }

    /// The values at these places, in this order.
    pub fn gather(&self, alloc: Global, at: &[u64]) -> Result<Column, NoMemory>
        requires { All (λ i. i < length (lent self.now.values)) at.now }
        ensures values { IfOk result (λ column. values_of column.values ≡ picked Null at.now (lent self.now.values)) }
        ensures ty { IfOk result (λ column. column.ty ≡ self.now.ty) }
    {
        Ok(Column {
            ty: self.ty,
            values: self.values.gather(alloc, at)?,
        })
    }
}
