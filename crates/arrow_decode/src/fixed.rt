// Columns of numbers and of truth values.
ghost use Rattle.std.specs.Prelude.{◌≡◌, ◌<◌, ◌≤◌, ◌^◌, map, length, IfOk};
ghost use Rattle.std.specs.List.{list_all};
ghost use Rattle.std.specs.Option.{option_map};
ghost use Rattle.std.specs.Int.{w8, w16, w32, w64};
ghost use Rattle.sub_types.specs.Optional.{optional};
ghost use Rattle.sub_types.specs.Nullable.{bool_value, int_value, dec_value};
ghost use Rattle.arrow_meta.specs.Values.{signed_in, ints_in, truths_in, decimals_in, has_digits};

use crate::buffer::bits;
use crate::number::numbers;
use col_fixed::{BoolCol, Fixed, Native};
use std::alloc::Global;
use sub_types::{Bits, NoMemory};

/// A column of `count` numbers, or none where the buffer has fewer.
pub(crate) fn fixed<T: Native>(
    alloc: Global,
    count: usize,
    valid: Bits,
    buffer: &[u8],
) -> Result<Option<Fixed<T>>, NoMemory>
    requires { length valid ≡ count }
    ensures { IfOk result (λ found. option_map (λ column. map (λ x. option_map T.number x) column) found
        ≡ option_map (λ numbers. optional numbers valid) (signed_in T.width T.SIZE count buffer.now)) }
{
    match numbers::<T>(alloc, count, buffer)? {
        None => Ok(None),
        Some(numbers) => Ok(Some(Fixed::from_parts(numbers, valid))),
    }
}

/// A column of `count` numbers of 8 bits, or none where the buffer has fewer.
pub(crate) fn numbers_i8(
    alloc: Global,
    count: usize,
    valid: Bits,
    buffer: &[u8],
) -> Result<Option<Fixed<i8>>, NoMemory>
    requires { length valid ≡ count }
    ensures { IfOk result (λ found. option_map (λ column. map int_value column) found ≡ ints_in w8 1 count valid buffer.now) }
{
    let found = fixed::<i8>(alloc, count, valid, buffer)?;
    Ok(found)
}

/// A column of `count` numbers of 16 bits, or none where the buffer has fewer.
pub(crate) fn numbers_i16(
    alloc: Global,
    count: usize,
    valid: Bits,
    buffer: &[u8],
) -> Result<Option<Fixed<i16>>, NoMemory>
    requires { length valid ≡ count }
    ensures { IfOk result (λ found. option_map (λ column. map int_value column) found ≡ ints_in w16 2 count valid buffer.now) }
{
    let found = fixed::<i16>(alloc, count, valid, buffer)?;
    Ok(found)
}

/// A column of `count` numbers of 32 bits, or none where the buffer has fewer.
pub(crate) fn numbers_i32(
    alloc: Global,
    count: usize,
    valid: Bits,
    buffer: &[u8],
) -> Result<Option<Fixed<i32>>, NoMemory>
    requires { length valid ≡ count }
    ensures { IfOk result (λ found. option_map (λ column. map int_value column) found ≡ ints_in w32 4 count valid buffer.now) }
{
    let found = fixed::<i32>(alloc, count, valid, buffer)?;
    Ok(found)
}

/// A column of `count` numbers of 64 bits, or none where the buffer has fewer.
pub(crate) fn numbers_i64(
    alloc: Global,
    count: usize,
    valid: Bits,
    buffer: &[u8],
) -> Result<Option<Fixed<i64>>, NoMemory>
    requires { length valid ≡ count }
    ensures { IfOk result (λ found. option_map (λ column. map int_value column) found ≡ ints_in w64 8 count valid buffer.now) }
{
    let found = fixed::<i64>(alloc, count, valid, buffer)?;
    Ok(found)
}

/// A column of `count` truth values, or none where the buffer has fewer bits.
pub(crate) fn truths(
    alloc: Global,
    count: usize,
    valid: Bits,
    buffer: &[u8],
) -> Result<Option<BoolCol>, NoMemory>
    requires { length valid ≡ count }
    ensures { IfOk result (λ found. option_map (λ column. map bool_value column) found ≡ truths_in count valid buffer.now) }
{
    match bits(alloc, count, buffer)? {
        None => Ok(None),
        Some(values) => Ok(Some(BoolCol::from_parts(values, valid))),
    }
}

/// A column of `count` decimals, or none where the buffer has fewer or a valid one has more digits than
/// `precision`.
#[tactic(auto, unfolding(arrow_meta::specs::Values::decimals_in))]
pub(crate) fn decimals(
    alloc: Global,
    precision: u8,
    count: usize,
    valid: Bits,
    buffer: &[u8],
) -> Result<Option<Fixed<i128>>, NoMemory>
    requires long { length valid ≡ count }
    requires digits { precision ≤ 38 }
    ensures { IfOk result (λ found. option_map (λ column. map dec_value column) found
        ≡ decimals_in precision count valid buffer.now) }
{
    let Some(column) = fixed::<i128>(alloc, count, valid, buffer)? else {
        return Ok(None);
    };
    if !all_have_digits(&column, precision) {
        return Ok(None);
    }
    Ok(Some(column))
}

// No value has more digits than `precision`.
fn all_have_digits(column: &Fixed<i128>, precision: u8) -> bool
    requires { precision ≤ 38 }
    ensures { result ≡ list_all (has_digits precision) column.now }
{
    let limit = 10u128.pow(u32::from(precision));
    for i in 0..column.len() {
        if let Some(number) = column.value_at(i) {
            if number.unsigned_abs() >= limit {
                return false;
            }
        }
    }
    true
}
