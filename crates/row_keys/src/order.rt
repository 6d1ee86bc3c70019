// The order of keys.
ghost use Rattle.std.specs.Prelude.{◌≡◌, ◌<◌, length, map, slice_index_or, All, if◌then◌else◌};
ghost use Rattle.std.specs.Ordering.{bool_cmp};
ghost use Rattle.plan_denote.specs.Sort.{key_cmp, directed_cmp, sized_cmp};
ghost use Rattle.sub_types.specs.declared.value.Value.TheVariants.{Null};
ghost use Rattle.batch.specs.BatchRows.{types_of};
ghost use Rattle.batch.specs.ColumnValues.{values_of, storage_of};
ghost use Rattle.row_keys.specs.Keys.{sort_key_of, value_in, direction_of};

use crate::values::{column_at, compare_values, is_null_at};
use batch::{Batch, ColumnData};
use rel_specs::KeyOrder;
use std::cmp::Ordering;

/// The order of two rows by their keys: the first key in which they differ decides. It takes no memory.
pub fn compare_keys(a: &Batch, i: u64, b: &Batch, j: u64, keys: &[KeyOrder]) -> Ordering
    requires types { types_of a.now ≡ types_of b.now }
    requires first { i < a.now.rows }
    requires second { j < b.now.rows }
    requires columns { All (λ key. key.column < length a.now.columns.items) keys.now }
    ensures { result ≡ key_cmp (map direction_of keys.now) (sort_key_of keys.now a.now i) (sort_key_of keys.now b.now j) }
{
    for key in keys {
        let order = compare_column(key, a, i, b, j);
        if order != Ordering::Equal {
            return order;
        }
    }
    Ordering::Equal
}

// Two rows by one key.
fn compare_column(key: &KeyOrder, a: &Batch, i: u64, b: &Batch, j: u64) -> Ordering
    requires types { types_of a.now ≡ types_of b.now }
    requires first { i < a.now.rows }
    requires second { j < b.now.rows }
    requires column { key.now.column < length a.now.columns.items }
    requires other { key.now.column < length b.now.columns.items }
    ensures { result ≡ directed_cmp (direction_of key.now) (value_in a.now i key.now.column) (value_in b.now j key.now.column) }
{
    let first = &column_at(a, key.column).values;
    let second = &column_at(b, key.column).values;
    compare_directed(key, first, i as usize, second, j as usize)
}

// Two values in a direction: nulls first or last, and the others by value, or the other way round.
fn compare_directed(key: &KeyOrder, a: &ColumnData, i: usize, b: &ColumnData, j: usize) -> Ordering
    requires alike { storage_of a.now ≡ storage_of b.now }
    requires first { i < length (values_of a.now) }
    requires second { j < length (values_of b.now) }
    ensures { result ≡ directed_cmp (direction_of key.now) (slice_index_or (values_of a.now) i Null) (slice_index_or (values_of b.now) j Null) }
{
    let by_null = compare_nulls(key.nulls_first, is_null_at(a, i), is_null_at(b, j));
    if by_null != Ordering::Equal {
        return by_null;
    }
    compare_sizes(key.descending, a, i, b, j)
}

// Nulls first or last.
fn compare_nulls(first: bool, a: bool, b: bool) -> Ordering
    ensures { result ≡ if first then bool_cmp b a else bool_cmp a b }
{
    if first { b.cmp(&a) } else { a.cmp(&b) }
}

// By size, or the other way round.
fn compare_sizes(descending: bool, a: &ColumnData, i: usize, b: &ColumnData, j: usize) -> Ordering
    requires alike { storage_of a.now ≡ storage_of b.now }
    requires first { i < length (values_of a.now) }
    requires second { j < length (values_of b.now) }
    ensures { result ≡ sized_cmp descending (slice_index_or (values_of a.now) i Null) (slice_index_or (values_of b.now) j Null) }
{
    if descending {
        compare_values(b, j, a, i)
    } else {
        compare_values(a, i, b, j)
    }
}
