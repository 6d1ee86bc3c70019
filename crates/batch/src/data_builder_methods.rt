// What the values of a column that grow can do, however they are stored.
ghost use Rattle.std.specs.Prelude.{◌≡◌, ◌≤◌, ◌++◌, ◌∷◌, [], length, IfOk, OnOk, OnErr};
ghost use Rattle.std.specs.List.{slice_range};
ghost use Rattle.batch.specs.ColumnValues.{values_of, storage_of};
ghost use Rattle.batch.specs.Built.{built, built_storage, IsStored};
ghost use Rattle.batch.specs.Lent.{lent, lent_storage};
ghost use Rattle.sub_types.specs.declared.value.Value.TheVariants.{Null};

use crate::data_builder::DataBuilder;
use crate::{ColumnData, DataView, Storage};
use col_fixed::{BoolBuilder, FixedBuilder};
use col_text::TextBuilder;
use std::alloc::Global;
use sub_types::{NoMemory, Value};

impl DataBuilder {
    /// No values, to be stored so. It takes no memory.
    pub(crate) fn new(alloc: Global, storage: Storage) -> DataBuilder
        ensures values { built result ≡ [] }
        ensures storage { built_storage result ≡ storage }
    {
        match storage {
            Storage::Bool => DataBuilder::Bool(BoolBuilder::new(alloc)),
            Storage::I8 => DataBuilder::I8(FixedBuilder::new(alloc)),
            Storage::I16 => DataBuilder::I16(FixedBuilder::new(alloc)),
            Storage::I32 => DataBuilder::I32(FixedBuilder::new(alloc)),
            Storage::I64 => DataBuilder::I64(FixedBuilder::new(alloc)),
            Storage::I128 => DataBuilder::I128(FixedBuilder::new(alloc)),
            Storage::Bytes => DataBuilder::Bytes(TextBuilder::new(alloc)),
        }
    }

    /// No values, to be stored so, with room for so many. Texts and binaries have no room for their bytes.
    pub(crate) fn with_capacity(
        alloc: Global,
        storage: Storage,
        n: usize,
    ) -> Result<DataBuilder, NoMemory>
        ensures values { IfOk result (λ builder. built builder ≡ []) }
        ensures storage { IfOk result (λ builder. built_storage builder ≡ storage) }
    {
        match storage {
            Storage::Bool => Ok(DataBuilder::Bool(BoolBuilder::with_capacity(alloc, n)?)),
            Storage::I8 => Ok(DataBuilder::I8(FixedBuilder::with_capacity(alloc, n)?)),
            Storage::I16 => Ok(DataBuilder::I16(FixedBuilder::with_capacity(alloc, n)?)),
            Storage::I32 => Ok(DataBuilder::I32(FixedBuilder::with_capacity(alloc, n)?)),
            Storage::I64 => Ok(DataBuilder::I64(FixedBuilder::with_capacity(alloc, n)?)),
            Storage::I128 => Ok(DataBuilder::I128(FixedBuilder::with_capacity(alloc, n)?)),
            Storage::Bytes => Ok(DataBuilder::Bytes(TextBuilder::with_capacity(alloc, n, 0)?)),
        }
    }

    /// Adds one at the end.
    pub(crate) fn push(&mut self, value: &Value) -> Result<(), NoMemory>
        requires { IsStored (built_storage self.old) value.now }
        ensures ok { OnOk result (built self.new ≡ built self.old ++ value.now ∷ []) }
        ensures err { OnErr result (self.new ≡ self.old) }
        ensures storage { built_storage self.new ≡ built_storage self.old }
    {
        if let Value::Null = value {
            return self.push_null();
        }
        match (self, value) {
            (DataBuilder::Bool(builder), Value::Bool(truth)) => builder.push(Some(*truth)),
            (DataBuilder::I8(builder), Value::Int(number)) => builder.push(Some(*number as i8)),
            (DataBuilder::I16(builder), Value::Int(number)) => builder.push(Some(*number as i16)),
            (DataBuilder::I32(builder), Value::Int(number)) => builder.push(Some(*number as i32)),
            (DataBuilder::I64(builder), Value::Int(number)) => builder.push(Some(*number)),
            (DataBuilder::I128(builder), Value::Dec(number)) => builder.push(Some(*number)),
            (DataBuilder::Bytes(builder), Value::Bytes(bytes)) => builder.push(Some(bytes.bytes())),
            _ => unreachable!(),
        }
    }

    fn push_null(&mut self) -> Result<(), NoMemory>
        ensures ok { OnOk result (built self.new ≡ built self.old ++ Null ∷ []) }
        ensures err { OnErr result (self.new ≡ self.old) }
        ensures storage { built_storage self.new ≡ built_storage self.old }
    {
        match self {
            DataBuilder::Bool(builder) => builder.push(None),
            DataBuilder::I8(builder) => builder.push(None),
            DataBuilder::I16(builder) => builder.push(None),
            DataBuilder::I32(builder) => builder.push(None),
            DataBuilder::I64(builder) => builder.push(None),
            DataBuilder::I128(builder) => builder.push(None),
            DataBuilder::Bytes(builder) => builder.push(None),
        }
    }

    /// Adds the values of `more` from `from` to before `to` at the end.
    pub(crate) fn append(
        &mut self,
        more: &ColumnData,
        from: usize,
        to: usize,
    ) -> Result<(), NoMemory>
        requires alike { storage_of more.now ≡ built_storage self.old }
        requires rising { from ≤ to }
        requires within { to ≤ length (values_of more.now) }
        ensures ok { OnOk result (built self.new ≡ built self.old ++ slice_range (values_of more.now) from to) }
        ensures err { OnErr result (self.new ≡ self.old) }
        ensures storage { built_storage self.new ≡ built_storage self.old }
    {
        self.extend(&more.view().part(from, to))
    }

    /// Adds the lent values at the end.
    pub(crate) fn extend(&mut self, more: &DataView<'_>) -> Result<(), NoMemory>
        requires { lent_storage more.now ≡ built_storage self.old }
        ensures ok { OnOk result (built self.new ≡ built self.old ++ lent more.now) }
        ensures err { OnErr result (self.new ≡ self.old) }
        ensures storage { built_storage self.new ≡ built_storage self.old }
    {
        match (self, more) {
            (DataBuilder::Bool(builder), DataView::Bool(part)) => builder.append(part),
            (DataBuilder::I8(builder), DataView::I8(part)) => builder.append(part),
            (DataBuilder::I16(builder), DataView::I16(part)) => builder.append(part),
            (DataBuilder::I32(builder), DataView::I32(part)) => builder.append(part),
            (DataBuilder::I64(builder), DataView::I64(part)) => builder.append(part),
            (DataBuilder::I128(builder), DataView::I128(part)) => builder.append(part),
            (DataBuilder::Bytes(builder), DataView::Bytes(part)) => builder.append(part),
            _ => unreachable!(),
        }
    }
}
