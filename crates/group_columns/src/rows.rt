// What a measure takes of rows goes to their groups.
ghost use Rattle.std.specs.Prelude.{◌≡◌, ◌+◌, ◌<◌, ◌≤◌, ◌^◌, true, length, slice_index_or, All, IfOk, OnOk, if◌then◌else◌};
ghost use Rattle.sub_types.specs.declared.value.Value.TheVariants.{Null};
ghost use Rattle.sub_types.specs.Nullable.{dec_value, int_value};
ghost use Rattle.batch.specs.ColumnValues.{values_of as column_values_of};
ghost use Rattle.plan_denote.specs.Computed.{is_true as spec_is_true};
ghost use Rattle.group_tallies.specs.Kept.{tallies_in, keeping_in, tally_at, with_tally, kept_of};
ghost use Rattle.group_columns.specs.Columns.{IsWhole, count_in, values_or_true, tests_of, values_of, members_of, with_members};

use crate::taken::Taken;
use batch::{Column, ColumnData};
use eval_values::is_true;
use group_tallies::Tallies;
use std::alloc::Global;
use sub_types::{NoMemory, Value};

/// Adds what a measure takes of rows.
pub(crate) fn add_rows(
    alloc: Global,
    tallies: &mut Tallies,
    numbers: &[usize],
    taken: &Taken,
) -> Result<(), NoMemory>
    requires numbers { All (λ number. number < length (tallies_in tallies.old)) numbers.now }
    requires whole { IsWhole (length numbers.now) taken.now }
    requires room { count_in (tallies_in tallies.old) + length numbers.now ≤ 2 ^ 62 }
    ensures tallies { OnOk result (tallies_in tallies.new ≡ with_members (keeping_in tallies.old) (tallies_in tallies.old) numbers.now (members_of (length numbers.now) taken.now)) }
    ensures keeping { OnOk result (keeping_in tallies.new ≡ keeping_in tallies.old) }
    ensures groups { OnOk result (length (tallies_in tallies.new) ≡ length (tallies_in tallies.old)) }
    ensures counts { OnOk result (count_in (tallies_in tallies.new) ≤ count_in (tallies_in tallies.old) + length numbers.now) }
{
    let rows = numbers.len();
    let mut place = 0;
    for row in 0..rows {
        place = add_row(alloc, tallies, numbers[row], taken, rows, row, place)?;
    }
    Ok(())
}

/// Adds what a measure takes of one of so many rows, where the next value has this place, and gives the place of the next one.
#[inline(always)]
fn add_row(
    alloc: Global,
    tallies: &mut Tallies,
    number: usize,
    taken: &Taken,
    rows: usize,
    row: usize,
    place: usize,
) -> Result<usize, NoMemory>
    requires number { number < length (tallies_in tallies.old) }
    requires row { row < length (tests_of rows taken.now) }
    requires within { row < rows }
    requires behind { place ≤ row }
    requires place { spec_is_true (slice_index_or (tests_of rows taken.now) row Null) ≡ true → place < length (values_of rows taken.now) }
    requires room { (tally_at (tallies_in tallies.old) number).count < 2 ^ 62 }
    ensures tallies { OnOk result (tallies_in tallies.new ≡ if spec_is_true (slice_index_or (tests_of rows taken.now) row Null) then with_tally (tallies_in tallies.old) number (kept_of (keeping_in tallies.old) (slice_index_or (values_of rows taken.now) place Null)) else tallies_in tallies.old) }
    ensures keeping { OnOk result (keeping_in tallies.new ≡ keeping_in tallies.old) }
    ensures next { IfOk result (λ next. next ≡ if spec_is_true (slice_index_or (tests_of rows taken.now) row Null) then place + 1 else place) }
{
    let test = value_or_true(alloc, &taken.tests, rows, row)?;
    if !is_true(&test) {
        return Ok(place);
    }
    let value = value_or_true(alloc, &taken.values, rows, place)?;
    tallies.add(number, value);
    Ok(place + 1)
}

/// The value at a place of a column, and true where there is none.
#[inline(always)]
fn value_or_true(
    alloc: Global,
    column: &Option<Column>,
    rows: usize,
    place: usize,
) -> Result<Value, NoMemory>
    requires { place < length (values_or_true rows column.now) }
    ensures { IfOk result (λ value. value ≡ slice_index_or (values_or_true rows column.now) place Null) }
{
    match column {
        Some(column) => value_in(alloc, &column.values, place),
        None => Ok(Value::Bool(true)),
    }
}

/// The value at a place of a column. A number of 32 or 64 bits and a decimal are read where they stand.
#[inline(always)]
fn value_in(alloc: Global, column: &ColumnData, place: usize) -> Result<Value, NoMemory>
    requires { place < length (column_values_of column.now) }
    ensures { IfOk result (λ value. value ≡ slice_index_or (column_values_of column.now) place Null) }
{
    match column {
        ColumnData::I32(numbers) => Ok(short_or_null(numbers.value_at(place))),
        ColumnData::I64(numbers) => Ok(number_or_null(numbers.value_at(place))),
        ColumnData::I128(numbers) => Ok(decimal_or_null(numbers.value_at(place))),
        _ => column.value_at(alloc, place),
    }
}

#[inline(always)]
fn short_or_null(number: Option<i32>) -> Value
    ensures { result ≡ int_value number }
{
    match number {
        Some(number) => Value::Int(i64::from(number)),
        None => Value::Null,
    }
}

#[inline(always)]
fn number_or_null(number: Option<i64>) -> Value
    ensures { result ≡ int_value number }
{
    match number {
        Some(number) => Value::Int(number),
        None => Value::Null,
    }
}

#[inline(always)]
fn decimal_or_null(number: Option<i128>) -> Value
    ensures { result ≡ dec_value number }
{
    match number {
        Some(number) => Value::Dec(number),
        None => Value::Null,
    }
}
