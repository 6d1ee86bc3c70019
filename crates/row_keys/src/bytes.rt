// The bytes of a key.
ghost use Rattle.std.specs.Prelude.{◌≡◌, ◌<◌, ◌++◌, List, length, slice_index_or, option_copied, All, IfOk, OnOk};
ghost use Rattle.sub_types.specs.Nullable.{bool_value, int_value, dec_value, bytes_value};
ghost use Rattle.sub_types.specs.declared.value.Value.{Value};
ghost use Rattle.sub_types.specs.declared.value.Value.TheVariants.{Null};
ghost use Rattle.batch.specs.ColumnValues.{values_of};
ghost use Rattle.row_keys.specs.Keys.{key_of};
ghost use Rattle.row_keys.specs.KeyBytes.{value_bytes, bytes_of_key, IsHeld};

use crate::values::column_at;
use batch::{Batch, ColumnData};
use std::alloc::Global;
use sub_types::{ByteList, NoMemory};

/// The bytes of the values of these columns at a row, which are equal exactly where the values are, with null equal to null,
/// whatever the batches.
pub fn key_bytes(
    alloc: Global,
    batch: &Batch,
    columns: &[u32],
    row: u64,
) -> Result<ByteList, NoMemory>
    requires row { row < batch.now.rows }
    requires columns { All (λ column. column < length batch.now.columns.items) columns.now }
    ensures bytes { IfOk result (λ bytes. bytes ≡ bytes_of_key (key_of columns.now batch.now row)) }
    ensures held { OnOk result (All IsHeld (key_of columns.now batch.now row)) }
    ensures equal { (key : List Value) → All IsHeld key → IfOk result (λ bytes. bytes ≡ bytes_of_key key → key_of columns.now batch.now row ≡ key) }
{
    let mut bytes = Vec::new(alloc);
    write_key(&mut bytes, batch, columns, row)?;
    Ok(ByteList::from_vec(bytes))
}

/// Writes those bytes into a buffer, in place of what it held.
pub fn write_key(
    bytes: &mut Vec<u8>,
    batch: &Batch,
    columns: &[u32],
    row: u64,
) -> Result<(), NoMemory>
    requires row { row < batch.now.rows }
    requires columns { All (λ column. column < length batch.now.columns.items) columns.now }
    ensures bytes { OnOk result (bytes.new.items ≡ bytes_of_key (key_of columns.now batch.now row)) }
    ensures held { OnOk result (All IsHeld (key_of columns.now batch.now row)) }
    ensures equal { (key : List Value) → All IsHeld key → OnOk result (bytes.new.items ≡ bytes_of_key key → key_of columns.now batch.now row ≡ key) }
{
    bytes.clear();
    for column in columns {
        push_value(bytes, &column_at(batch, *column).values, row as usize)?;
    }
    Ok(())
}

// Writes the value of a column at a row.
fn push_value(bytes: &mut Vec<u8>, column: &ColumnData, row: usize) -> Result<(), NoMemory>
    requires { row < length (values_of column.now) }
    ensures bytes { OnOk result (bytes.new.items ≡ bytes.old.items ++ value_bytes (slice_index_or (values_of column.now) row Null)) }
    ensures held { IsHeld (slice_index_or (values_of column.now) row Null) }
{
    match column {
        ColumnData::Bool(column) => push_bool(bytes, column.value_at(row)),
        ColumnData::I8(column) => push_int(bytes, column.value_at(row).map(i64::from)),
        ColumnData::I16(column) => push_int(bytes, column.value_at(row).map(i64::from)),
        ColumnData::I32(column) => push_int(bytes, column.value_at(row).map(i64::from)),
        ColumnData::I64(column) => push_int(bytes, column.value_at(row)),
        ColumnData::I128(column) => push_dec(bytes, column.value_at(row)),
        ColumnData::Bytes(column) => push_text(bytes, column.value_at(row)),
    }
}

fn push_bool(bytes: &mut Vec<u8>, truth: Option<bool>) -> Result<(), NoMemory>
    ensures bytes { OnOk result (bytes.new.items ≡ bytes.old.items ++ value_bytes (bool_value truth)) }
    ensures held { IsHeld (bool_value truth) }
{
    let byte = match truth {
        None => 0,
        Some(false) => 1,
        Some(true) => 2,
    };
    bytes.push(byte)?;
    Ok(())
}

fn push_int(bytes: &mut Vec<u8>, number: Option<i64>) -> Result<(), NoMemory>
    ensures bytes { OnOk result (bytes.new.items ≡ bytes.old.items ++ value_bytes (int_value number)) }
    ensures held { IsHeld (int_value number) }
{
    let Some(number) = number else {
        bytes.push(0)?;
        return Ok(());
    };
    bytes.push(3)?;
    bytes.extend_from_slice(&number.cast_unsigned().to_le_bytes())?;
    Ok(())
}

fn push_dec(bytes: &mut Vec<u8>, number: Option<i128>) -> Result<(), NoMemory>
    ensures bytes { OnOk result (bytes.new.items ≡ bytes.old.items ++ value_bytes (dec_value number)) }
    ensures held { IsHeld (dec_value number) }
{
    let Some(number) = number else {
        bytes.push(0)?;
        return Ok(());
    };
    bytes.push(4)?;
    bytes.extend_from_slice(&number.cast_unsigned().to_le_bytes())?;
    Ok(())
}

fn push_text(bytes: &mut Vec<u8>, text: Option<&[u8]>) -> Result<(), NoMemory>
    ensures bytes { OnOk result (bytes.new.items ≡ bytes.old.items ++ value_bytes (bytes_value (option_copied text.entry))) }
    ensures held { IsHeld (bytes_value (option_copied text.entry)) }
{
    let Some(text) = text else {
        bytes.push(0)?;
        return Ok(());
    };
    bytes.push(5)?;
    bytes.extend_from_slice(&(text.len() as u64).to_le_bytes())?;
    bytes.extend_from_slice(text)?;
    Ok(())
}
