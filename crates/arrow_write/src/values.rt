// The value buffers of a column (Arrow columnar format, fixed-size primitive and variable-size binary layouts).
ghost use Rattle.std.specs.Prelude.{◌≡◌, ◌+◌, ◌≤◌, ◌++◌, ◌∷◌, [], IfOk, OnOk, length, take, drop};
ghost use Rattle.std.specs.List.{flat_map, concat};
ghost use Rattle.byteorder.specs.Endian.{little_bytes};
ghost use Rattle.sub_types.specs.Slots.{slots};
ghost use Rattle.arrow_meta.specs.Buffers.{text_ends};
ghost use Rattle.arrow_write.specs.Bodies.{Puts};
ghost use Rattle.arrow_write.specs.Stored.{stored_buffers};

use crate::body::Body;
use crate::packing::packed_bytes;
use batch::ColumnData;
use col_text::TextCol;
use std::alloc::Global;
use sub_types::NoMemory;

// Adds the buffers of values, with zeros or nothing where there is none.
pub(crate) fn put_values(
    alloc: Global,
    body: &mut Body,
    values: &ColumnData,
) -> Result<(), NoMemory>
    ensures put { OnOk result (Puts body.old body.new (stored_buffers values.now)) }
    ensures nodes { OnOk result (body.new.nodes.items ≡ body.old.nodes.items) }
{
    match values {
        ColumnData::Bool(column) => body.put(&packed_bytes(alloc, column.values())?),
        ColumnData::I8(column) => body.put_numbers(column.values()),
        ColumnData::I16(column) => body.put_numbers(column.values()),
        ColumnData::I32(column) => body.put_numbers(column.values()),
        ColumnData::I64(column) => body.put_numbers(column.values()),
        ColumnData::I128(column) => body.put_numbers(column.values()),
        ColumnData::Bytes(column) => put_texts(alloc, body, column),
    }
}

// Adds the offsets and the bytes of texts or binaries.
fn put_texts(alloc: Global, body: &mut Body, column: &TextCol) -> Result<(), NoMemory>
    ensures put { OnOk result (Puts body.old body.new
        ((little_bytes 4 0 ++ text_ends 0 (slots [] column.now)) ∷ concat (slots [] column.now) ∷ [])) }
    ensures nodes { OnOk result (body.new.nodes.items ≡ body.old.nodes.items) }
{
    body.put(&offset_bytes(alloc, column)?)?;
    body.put(column.bytes())
}

// Where each text begins and the last one ends, as the low four bytes of each place: the others are 0, since the
// texts of one record batch have at most 2^30 bytes where they fit their types.
fn offset_bytes(alloc: Global, column: &TextCol) -> Result<Vec<u8>, NoMemory>
    ensures { IfOk result (λ bytes. bytes.items ≡ little_bytes 4 0 ++ text_ends 0 (slots [] column.now)) }
{
    let Some(ends) = column.len().checked_mul(4) else {
        return Err(NoMemory);
    };
    let Some(len) = ends.checked_add(4) else {
        return Err(NoMemory);
    };
    let mut bytes = vec![in alloc; 0; len]?;
    for i in 0..column.len() {
        write_end(&mut bytes, 4 * i + 4, column.offset(i + 1));
    }
    Ok(bytes)
}

// Writes the low four bytes of where a text ends over those at a place.
fn write_end(bytes: &mut [u8], place: usize, end: usize)
    requires { place + 4 ≤ length bytes.old }
    ensures { bytes.new ≡ take place bytes.old ++ (little_bytes 4 end ++ drop (place + 4) bytes.old) }
{
    bytes[place..place + 4].copy_from_slice(&end.to_le_bytes()[..4]);
}
