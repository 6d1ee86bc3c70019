// The values of a column that grows at its end, however they are stored.
ghost use Rattle.std.specs.Prelude.{◌≡◌};
ghost use Rattle.batch.specs.ColumnValues.{values_of, storage_of};
ghost use Rattle.batch.specs.Built.{built, built_storage};

use crate::ColumnData;
use col_fixed::{BoolBuilder, FixedBuilder};
use col_text::TextBuilder;

/// The values of a column that grows at its end.
#[derive(Debug)]
pub(crate) enum DataBuilder {
    Bool(BoolBuilder),
    I8(FixedBuilder<i8>),
    I16(FixedBuilder<i16>),
    I32(FixedBuilder<i32>),
    I64(FixedBuilder<i64>),
    I128(FixedBuilder<i128>),
    Bytes(TextBuilder),
}

impl DataBuilder {
    /// The column of all that was added.
    pub(crate) fn finish(self) -> ColumnData
        ensures values { values_of result ≡ built self }
        ensures storage { storage_of result ≡ built_storage self }
    {
        match self {
            DataBuilder::Bool(builder) => ColumnData::Bool(builder.finish()),
            DataBuilder::I8(builder) => ColumnData::I8(builder.finish()),
            DataBuilder::I16(builder) => ColumnData::I16(builder.finish()),
            DataBuilder::I32(builder) => ColumnData::I32(builder.finish()),
            DataBuilder::I64(builder) => ColumnData::I64(builder.finish()),
            DataBuilder::I128(builder) => ColumnData::I128(builder.finish()),
            DataBuilder::Bytes(builder) => ColumnData::Bytes(builder.finish()),
        }
    }
}

// Its own, so that where one is dropped a proof meets a call, in place of a case for each variant.
impl Drop for DataBuilder {
    fn drop(self) {
        match self {
            DataBuilder::Bool(_) => {}
            DataBuilder::I8(_) => {}
            DataBuilder::I16(_) => {}
            DataBuilder::I32(_) => {}
            DataBuilder::I64(_) => {}
            DataBuilder::I128(_) => {}
            DataBuilder::Bytes(_) => {}
        }
    }
}
