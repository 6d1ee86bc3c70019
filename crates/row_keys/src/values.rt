// Values as they stand in columns, compared without a copy.
ghost use Rattle.std.specs.Prelude.{◌≡◌, ◌<◌, Some, length, slice_index_or, option_copied};
ghost use Rattle.plan_denote.specs.Computed.{is_null};
ghost use Rattle.plan_denote.specs.Order.{value_cmp};
ghost use Rattle.sub_types.specs.Nullable.{bool_value, int_value, dec_value, bytes_value};
ghost use Rattle.sub_types.specs.declared.value.Value.TheVariants.{Null};
ghost use Rattle.sub_types.specs.declared.kind.Ty.{Ty};
ghost use Rattle.batch.specs.BatchRows.{column_of, types_of};
ghost use Rattle.batch.specs.ColumnValues.{values_of, storage_of};
ghost use Rattle.row_keys.specs.Keys.{kind_at};

use batch::{Batch, Column, ColumnData};
use std::cmp::Ordering;

// The column at a place.
pub(crate) fn column_at(batch: &Batch, column: u32) -> &Column
    requires { column < length batch.now.columns.items }
    ensures values { values_of result.now.values ≡ column_of column batch.now }
    ensures ty { (ty : Ty) → result.now.ty ≡ slice_index_or (types_of batch.now) column ty }
    ensures kind { kind_at (types_of batch.now) column ≡ Some result.now.ty.kind }
    ensures rows { length (values_of result.now.values) ≡ batch.now.rows }
{
    &batch.columns[column as usize]
}

// Whether a column has a null at a row.
pub(crate) fn is_null_at(column: &ColumnData, row: usize) -> bool
    requires { row < length (values_of column.now) }
    ensures { result ≡ is_null (slice_index_or (values_of column.now) row Null) }
{
    match column {
        ColumnData::Bool(column) => column.value_at(row).is_none(),
        ColumnData::I8(column) => column.value_at(row).is_none(),
        ColumnData::I16(column) => column.value_at(row).is_none(),
        ColumnData::I32(column) => column.value_at(row).is_none(),
        ColumnData::I64(column) => column.value_at(row).is_none(),
        ColumnData::I128(column) => column.value_at(row).is_none(),
        ColumnData::Bytes(column) => column.value_at(row).is_none(),
    }
}

// The order of two values of columns that are stored alike: null first, and others by size or by bytes.
pub(crate) fn compare_values(a: &ColumnData, i: usize, b: &ColumnData, j: usize) -> Ordering
    requires alike { storage_of a.now ≡ storage_of b.now }
    requires first { i < length (values_of a.now) }
    requires second { j < length (values_of b.now) }
    ensures { result ≡ value_cmp (slice_index_or (values_of a.now) i Null) (slice_index_or (values_of b.now) j Null) }
{
    match (a, b) {
        (ColumnData::Bool(a), ColumnData::Bool(b)) => compare_bools(a.value_at(i), b.value_at(j)),
        (ColumnData::I8(a), ColumnData::I8(b)) => {
            compare_ints(a.value_at(i).map(i64::from), b.value_at(j).map(i64::from))
        }
        (ColumnData::I16(a), ColumnData::I16(b)) => {
            compare_ints(a.value_at(i).map(i64::from), b.value_at(j).map(i64::from))
        }
        (ColumnData::I32(a), ColumnData::I32(b)) => {
            compare_ints(a.value_at(i).map(i64::from), b.value_at(j).map(i64::from))
        }
        (ColumnData::I64(a), ColumnData::I64(b)) => compare_ints(a.value_at(i), b.value_at(j)),
        (ColumnData::I128(a), ColumnData::I128(b)) => compare_decs(a.value_at(i), b.value_at(j)),
        (ColumnData::Bytes(a), ColumnData::Bytes(b)) => compare_texts(a.value_at(i), b.value_at(j)),
        _ => unreachable!(),
    }
}

fn compare_bools(a: Option<bool>, b: Option<bool>) -> Ordering
    ensures { result ≡ value_cmp (bool_value a) (bool_value b) }
{
    match (a, b) {
        (Some(a), Some(b)) => a.cmp(&b),
        (Some(_), None) => Ordering::Greater,
        (None, Some(_)) => Ordering::Less,
        (None, None) => Ordering::Equal,
    }
}

fn compare_ints(a: Option<i64>, b: Option<i64>) -> Ordering
    ensures { result ≡ value_cmp (int_value a) (int_value b) }
{
    match (a, b) {
        (Some(a), Some(b)) => a.cmp(&b),
        (Some(_), None) => Ordering::Greater,
        (None, Some(_)) => Ordering::Less,
        (None, None) => Ordering::Equal,
    }
}

fn compare_decs(a: Option<i128>, b: Option<i128>) -> Ordering
    ensures { result ≡ value_cmp (dec_value a) (dec_value b) }
{
    match (a, b) {
        (Some(a), Some(b)) => a.cmp(&b),
        (Some(_), None) => Ordering::Greater,
        (None, Some(_)) => Ordering::Less,
        (None, None) => Ordering::Equal,
    }
}

fn compare_texts(a: Option<&[u8]>, b: Option<&[u8]>) -> Ordering
    ensures { result ≡ value_cmp (bytes_value (option_copied a.entry)) (bytes_value (option_copied b.entry)) }
{
    match (a, b) {
        (Some(a), Some(b)) => a.cmp(b),
        (Some(_), None) => Ordering::Greater,
        (None, Some(_)) => Ordering::Less,
        (None, None) => Ordering::Equal,
    }
}
