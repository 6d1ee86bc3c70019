// The values of a column or of a part of one, lent, whatever its kind.

use col_fixed::{BoolView, View};
use col_text::TextView;

/// The values of a column, or of a part of one, lent without a copy.
#[derive(Drop)]
pub enum DataView<'a> {
    Bool(BoolView<'a>),
    I8(View<'a, i8>),
    I16(View<'a, i16>),
    I32(View<'a, i32>),
    I64(View<'a, i64>),
    I128(View<'a, i128>),
    Bytes(TextView<'a>),
}
