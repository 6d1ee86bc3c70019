// What the values of a column can be asked for, whatever its kind.
ghost use Rattle.std.specs.Prelude.{◌≡◌, ◌<◌, length, replicate, slice_index_or, All, IfOk};
ghost use Rattle.batch.specs.Built.{IsStored};
ghost use Rattle.batch.specs.ColumnValues.{values_of, storage_of};
ghost use Rattle.batch.specs.Lent.{lent, lent_storage};
ghost use Rattle.sub_types.specs.Rows.{picked};
ghost use Rattle.sub_types.specs.declared.value.Value.TheVariants.{Null};

use crate::{ColumnData, DataView, Storage};
use col_fixed::{BoolCol, Fixed};
use col_text::TextCol;
use std::alloc::Global;
use sub_types::{NoMemory, Value};

impl ColumnData {
    /// `n` times the value, stored so.
    #[tactic(auto, using(crate::proofs::ValueLaws::map_replicate))]
    pub(crate) fn constant(
        alloc: Global,
        storage: Storage,
        value: &Value,
        n: usize,
    ) -> Result<ColumnData, NoMemory>
        requires { IsStored storage value.now }
        ensures values { IfOk result (λ column. values_of column ≡ replicate n value.now) }
        ensures storage { IfOk result (λ column. storage_of column ≡ storage) }
    {
        if let Value::Null = value {
            return ColumnData::nulls(alloc, storage, n);
        }
        match (storage, value) {
            (Storage::Bool, Value::Bool(truth)) => {
                Ok(ColumnData::Bool(BoolCol::constant(alloc, Some(*truth), n)?))
            }
            (Storage::I8, Value::Int(number)) => {
                Ok(ColumnData::I8(Fixed::constant(alloc, Some(*number as i8), n)?))
            }
            (Storage::I16, Value::Int(number)) => {
                Ok(ColumnData::I16(Fixed::constant(alloc, Some(*number as i16), n)?))
            }
            (Storage::I32, Value::Int(number)) => {
                Ok(ColumnData::I32(Fixed::constant(alloc, Some(*number as i32), n)?))
            }
            (Storage::I64, Value::Int(number)) => {
                Ok(ColumnData::I64(Fixed::constant(alloc, Some(*number), n)?))
            }
            (Storage::I128, Value::Dec(number)) => {
                Ok(ColumnData::I128(Fixed::constant(alloc, Some(*number), n)?))
            }
            (Storage::Bytes, Value::Bytes(bytes)) => {
                Ok(ColumnData::Bytes(TextCol::constant(alloc, Some(bytes.bytes()), n)?))
            }
            _ => unreachable!(),
        }
    }

    /// `n` nulls, stored so.
    #[tactic(auto, using(crate::proofs::ValueLaws::map_replicate))]
    fn nulls(alloc: Global, storage: Storage, n: usize) -> Result<ColumnData, NoMemory>
        ensures values { IfOk result (λ column. values_of column ≡ replicate n Null) }
        ensures storage { IfOk result (λ column. storage_of column ≡ storage) }
    {
        match storage {
            Storage::Bool => Ok(ColumnData::Bool(BoolCol::constant(alloc, None, n)?)),
            Storage::I8 => Ok(ColumnData::I8(Fixed::constant(alloc, None, n)?)),
            Storage::I16 => Ok(ColumnData::I16(Fixed::constant(alloc, None, n)?)),
            Storage::I32 => Ok(ColumnData::I32(Fixed::constant(alloc, None, n)?)),
            Storage::I64 => Ok(ColumnData::I64(Fixed::constant(alloc, None, n)?)),
            Storage::I128 => Ok(ColumnData::I128(Fixed::constant(alloc, None, n)?)),
            Storage::Bytes => Ok(ColumnData::Bytes(TextCol::constant(alloc, None, n)?)),
        }
    }

    pub fn len(&self) -> usize
        ensures { result ≡ length (values_of self.now) }
    {
        self.view().len()
    }

    /// All the values, lent.
    pub fn view(&self) -> DataView<'_>
        ensures values { lent result ≡ values_of self.now }
        ensures storage { lent_storage result ≡ storage_of self.now }
    {
        match self {
            ColumnData::Bool(column) => DataView::Bool(column.view()),
            ColumnData::I8(column) => DataView::I8(column.view()),
            ColumnData::I16(column) => DataView::I16(column.view()),
            ColumnData::I32(column) => DataView::I32(column.view()),
            ColumnData::I64(column) => DataView::I64(column.view()),
            ColumnData::I128(column) => DataView::I128(column.view()),
            ColumnData::Bytes(column) => DataView::Bytes(column.view()),
        }
    }

    /// The value at a place.
    pub fn value_at(&self, alloc: Global, i: usize) -> Result<Value, NoMemory>
        requires { i < length (values_of self.now) }
        ensures { IfOk result (λ value. value ≡ slice_index_or (values_of self.now) i Null) }
    {
        self.view().value_at(alloc, i)
    }

    /// The values at these places, in this order.
    pub fn gather(&self, alloc: Global, at: &[u64]) -> Result<ColumnData, NoMemory>
        requires { All (λ i. i < length (values_of self.now)) at.now }
        ensures values { IfOk result (λ column. values_of column ≡ picked Null at.now (values_of self.now)) }
        ensures storage { IfOk result (λ column. storage_of column ≡ storage_of self.now) }
    {
        self.view().gather(alloc, at)
    }
}
