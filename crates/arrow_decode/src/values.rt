// The values of a column, by its kind.
ghost use Rattle.std.specs.Prelude.{◌≡◌, ◌∷◌, ◌<◌, ◌^◌, [], Bool, None, Option, List, ℕ, length, map, IfOk, IfSome, IsTrue, option_copied, if◌then◌else◌};
ghost use Rattle.std.specs.Option.{option_map};
ghost use Rattle.sub_types.specs.Kind.{IsKind};
ghost use Rattle.arrow_meta.specs.declared.field.Layout.TheVariants as layouts;
ghost use Rattle.arrow_meta.specs.Known.{is_index_size};
ghost use Rattle.arrow_meta.specs.Values.{values_in};
ghost use Rattle.batch.specs.ColumnValues.{values_of, storage_of, kind_storage};

use crate::fixed::{decimals, numbers_i8, numbers_i16, numbers_i32, numbers_i64, truths};
use crate::index::encoded;
use crate::text::{binaries, texts};
use batch::ColumnData;
use col_text::TextCol;
use std::alloc::Global;
use sub_types::{Bits, Kind, NoMemory};

/// `count` values of a kind that has one buffer behind the validity, or none where the buffer doesn't hold
/// them.
pub(crate) fn fixed_values(
    alloc: Global,
    kind: Kind,
    count: usize,
    valid: Bits,
    buffer: &[u8],
) -> Result<Option<ColumnData>, NoMemory>
    requires long { length valid ≡ count }
    requires kind { IsKind kind }
    ensures values { (dictionary : Option (List (Option (List ℕ))))
        → IfOk result (λ found. option_map values_of found ≡ values_in kind layouts.Plain dictionary count valid (buffer.now ∷ [])) }
    ensures storage { IfOk result (λ found. IfSome found (λ column. storage_of column ≡ kind_storage kind)) }
{
    match kind {
        Kind::Bool => Ok(truths(alloc, count, valid, buffer)?.map(ColumnData::Bool)),
        Kind::I8 => Ok(numbers_i8(alloc, count, valid, buffer)?.map(ColumnData::I8)),
        Kind::I16 => Ok(numbers_i16(alloc, count, valid, buffer)?.map(ColumnData::I16)),
        Kind::I32 | Kind::Date => Ok(numbers_i32(alloc, count, valid, buffer)?.map(
            ColumnData::I32,
        )),
        Kind::I64 | Kind::Timestamp => Ok(numbers_i64(alloc, count, valid, buffer)?.map(
            ColumnData::I64,
        )),
        Kind::Decimal { precision, .. } => {
            Ok(decimals(alloc, precision, count, valid, buffer)?.map(ColumnData::I128))
        }
        Kind::Text | Kind::Binary => Ok(None),
    }
}

/// `count` texts or binaries, or none where the buffers don't hold them.
pub(crate) fn text_values(
    alloc: Global,
    kind: Kind,
    wide: bool,
    count: usize,
    valid: Bits,
    offsets: &[u8],
    bytes: &[u8],
) -> Result<Option<ColumnData>, NoMemory>
    requires long { length valid ≡ count }
    requires few { count < 2 ^ 31 }
    ensures values { (dictionary : Option (List (Option (List ℕ)))) → IfOk result (λ found. option_map values_of found
        ≡ values_in kind (if wide then layouts.Wide else layouts.Plain) dictionary count valid (offsets.now ∷ bytes.now ∷ [])) }
    ensures storage { IfOk result (λ found. IfSome found (λ column. storage_of column ≡ kind_storage kind)) }
{
    match kind {
        Kind::Text => Ok(texts(alloc, wide, count, valid, offsets, bytes)?.map(ColumnData::Bytes)),
        Kind::Binary => Ok(binaries(alloc, wide, count, valid, offsets, bytes)?.map(
            ColumnData::Bytes,
        )),
        _ => Ok(None),
    }
}
