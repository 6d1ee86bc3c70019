// What lent values can be asked for, whatever their kind.
ghost use Rattle.std.specs.Prelude.{◌≡◌, ◌↔◌, ◌<◌, ◌≤◌, [], length, slice_index_or, All, IfOk, IsTrue};
ghost use Rattle.std.specs.List.{slice_range};
ghost use Rattle.batch.specs.ColumnValues.{values_of, storage_of};
ghost use Rattle.batch.specs.Lent.{lent, lent_storage};
ghost use Rattle.sub_types.specs.Rows.{picked};
ghost use Rattle.sub_types.specs.declared.value.Value.TheVariants.{Null};

use crate::nullable::{bool_value, bytes_value, dec_value, int_value};
use crate::{ColumnData, DataView};
use std::alloc::Global;
use sub_types::{NoMemory, Value};

impl<'a> DataView<'a> {
    pub fn len(&self) -> usize
        ensures { result ≡ length (lent self.now) }
    {
        match self {
            DataView::Bool(part) => part.len(),
            DataView::I8(part) => part.len(),
            DataView::I16(part) => part.len(),
            DataView::I32(part) => part.len(),
            DataView::I64(part) => part.len(),
            DataView::I128(part) => part.len(),
            DataView::Bytes(part) => part.len(),
        }
    }

    pub fn is_empty(&self) -> bool
        ensures { IsTrue result ↔ (lent self.now ≡ []) }
    {
        self.len() == 0
    }

    /// The values from `from` to before `to`.
    pub fn part(&self, from: usize, to: usize) -> DataView<'a>
        requires rising { from ≤ to }
        requires within { to ≤ length (lent self.now) }
        ensures values { lent result ≡ slice_range (lent self.now) from to }
        ensures storage { lent_storage result ≡ lent_storage self.now }
    {
        match self {
            DataView::Bool(part) => DataView::Bool(part.part(from, to)),
            DataView::I8(part) => DataView::I8(part.part(from, to)),
            DataView::I16(part) => DataView::I16(part.part(from, to)),
            DataView::I32(part) => DataView::I32(part.part(from, to)),
            DataView::I64(part) => DataView::I64(part.part(from, to)),
            DataView::I128(part) => DataView::I128(part.part(from, to)),
            DataView::Bytes(part) => DataView::Bytes(part.part(from, to)),
        }
    }

    /// The value at a place.
    pub fn value_at(&self, alloc: Global, i: usize) -> Result<Value, NoMemory>
        requires { i < length (lent self.now) }
        ensures { IfOk result (λ value. value ≡ slice_index_or (lent self.now) i Null) }
    {
        match self {
            DataView::Bool(part) => Ok(bool_value(part.value_at(i))),
            DataView::I8(part) => Ok(int_value(part.value_at(i).map(i64::from))),
            DataView::I16(part) => Ok(int_value(part.value_at(i).map(i64::from))),
            DataView::I32(part) => Ok(int_value(part.value_at(i).map(i64::from))),
            DataView::I64(part) => Ok(int_value(part.value_at(i))),
            DataView::I128(part) => Ok(dec_value(part.value_at(i))),
            DataView::Bytes(part) => bytes_value(alloc, part.value_at(i)),
        }
    }

    /// The values at these places, in this order.
    pub fn gather(&self, alloc: Global, at: &[u64]) -> Result<ColumnData, NoMemory>
        requires { All (λ i. i < length (lent self.now)) at.now }
        ensures values { IfOk result (λ column. values_of column ≡ picked Null at.now (lent self.now)) }
        ensures storage { IfOk result (λ column. storage_of column ≡ lent_storage self.now) }
    {
        match self {
            DataView::Bool(part) => Ok(ColumnData::Bool(part.gather(alloc, at)?)),
            DataView::I8(part) => Ok(ColumnData::I8(part.gather(alloc, at)?)),
            DataView::I16(part) => Ok(ColumnData::I16(part.gather(alloc, at)?)),
            DataView::I32(part) => Ok(ColumnData::I32(part.gather(alloc, at)?)),
            DataView::I64(part) => Ok(ColumnData::I64(part.gather(alloc, at)?)),
            DataView::I128(part) => Ok(ColumnData::I128(part.gather(alloc, at)?)),
            DataView::Bytes(part) => Ok(ColumnData::Bytes(part.gather(alloc, at)?)),
        }
    }
}
