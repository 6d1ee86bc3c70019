// One column of a raw batch, decoded.
ghost use Rattle.std.specs.Prelude.{◌≡◌, ◌∷◌, ◌<◌, ◌^◌, [], length, false, pos, IfOk, IfSome, IsTrue, option_copied};
ghost use Rattle.std.specs.Option.{option_map};
ghost use Rattle.sub_types.specs.Kind.{IsKind};
ghost use Rattle.sub_types.specs.declared.kind.Kind.TheVariants as kinds;
ghost use Rattle.arrow_meta.specs.declared.field.Layout.TheVariants as layouts;
ghost use Rattle.arrow_meta.specs.Known.{IsLayout, is_index_size};
ghost use Rattle.arrow_meta.specs.Values.{values_in};
ghost use Rattle.batch.specs.ColumnValues.{values_of, storage_of, kind_storage};
ghost use Rattle.arrow_decode.specs.Buffers.{last_seen};

use crate::index::encoded;
use crate::values::{fixed_values, text_values};
use arrow_meta::Layout;
use batch::ColumnData;
use col_text::TextCol;
use std::alloc::Global;
use sub_types::{Bits, Kind, NoMemory};

/// The `count` values of a column from the one or two buffers behind its validity, or none where these don't
/// hold them.
pub(crate) fn column_values(
    alloc: Global,
    kind: Kind,
    layout: Layout,
    dictionary: Option<&TextCol>,
    count: usize,
    valid: Bits,
    first: &[u8],
    second: Option<&[u8]>,
) -> Result<Option<ColumnData>, NoMemory>
    requires long { length valid ≡ count }
    requires few { count < 2 ^ 31 }
    requires kind { IsKind kind }
    requires layout { IsLayout kind layout }
    ensures values { IfOk result (λ found. option_map values_of found
        ≡ values_in kind layout (option_copied dictionary.entry) count valid (first.now ∷ last_seen second.entry)) }
    ensures storage { IfOk result (λ found. IfSome found (λ column. storage_of column ≡ kind_storage kind)) }
{
    match layout {
        Layout::Plain => match second {
            None => fixed_values(alloc, kind, count, valid, first),
            Some(bytes) => text_values(alloc, kind, false, count, valid, first, bytes),
        },
        Layout::Wide => match second {
            None => Ok(None),
            Some(bytes) => text_values(alloc, kind, true, count, valid, first, bytes),
        },
        Layout::Index { width, signed, .. } => match second {
            None => index_values(alloc, width, signed, dictionary, count, &valid, first),
            Some(_) => Ok(None),
        },
    }
}

// The texts that indices name in a dictionary, none where that is bad.
fn index_values(
    alloc: Global,
    size: u8,
    signed: bool,
    dictionary: Option<&TextCol>,
    count: usize,
    valid: &Bits,
    indices: &[u8],
) -> Result<Option<ColumnData>, NoMemory>
    requires size { IsTrue (is_index_size size) }
    requires long { length valid.now ≡ count }
    requires few { count < 2 ^ 31 }
    ensures values { IfOk result (λ found. option_map values_of found
        ≡ values_in kinds.Text (layouts.Index (pos 0) size signed false) (option_copied dictionary.entry) count valid.now (indices.now ∷ [])) }
    ensures storage { IfOk result (λ found. IfSome found (λ column. storage_of column ≡ kind_storage kinds.Text)) }
{
    let Some(texts) = dictionary else {
        return Ok(None);
    };
    match encoded(alloc, size, signed, count, valid, texts, indices)? {
        None => Ok(None),
        Some(column) => Ok(Some(ColumnData::Bytes(column))),
    }
}
