// The values of a column, whatever its kind.

use col_fixed::{BoolCol, Fixed};
use col_text::TextCol;

/// The values of a column. A date is stored as `I32`, a timestamp as `I64`, a decimal as `I128`, a text
/// and a binary as `Bytes`.
#[derive(Debug)]
pub enum ColumnData {
    Bool(BoolCol),
    I8(Fixed<i8>),
    I16(Fixed<i16>),
    I32(Fixed<i32>),
    I64(Fixed<i64>),
    I128(Fixed<i128>),
    Bytes(TextCol),
}

// Its own, so that where one is dropped a proof meets a call, in place of a case for each variant.
impl Drop for ColumnData {
    fn drop(self) {
        match self {
            ColumnData::Bool(_) => {}
            ColumnData::I8(_) => {}
            ColumnData::I16(_) => {}
            ColumnData::I32(_) => {}
            ColumnData::I64(_) => {}
            ColumnData::I128(_) => {}
            ColumnData::Bytes(_) => {}
        }
    }
}
