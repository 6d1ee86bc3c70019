// Arguments as numbers of one type.
ghost use Rattle.std.specs.Prelude.{◌≡◌, ℕ, IfSome};
ghost use Rattle.sub_types.specs.Nullable as nullable;
ghost use Rattle.kernels.specs.Numbers.{ints, decs};
ghost use Rattle.call_kernels.specs.Numbers.{listed};
ghost use Rattle.call_kernels.specs.Operand.{values};

use crate::Operand;
use batch::ColumnData;
use col_fixed::{Fixed, Native};
use sub_types::Value;

/// A column of numbers, or one number at each place, or null.
#[derive(Drop)]
pub(crate) enum Numbers<'a, T: Native> {
    Column(&'a Fixed<T>),
    Constant(Option<T>),
}

/// The whole numbers of 8 bits that an argument is, if it is made of them.
pub(crate) fn i8_numbers(operand: Operand<'_>) -> Option<Numbers<'_, i8>>
    ensures { IfSome result (λ numbers. (n : ℕ) → ints (λ x. x) (listed n numbers) ≡ values n operand.entry) }
{
    match operand {
        Operand::Column(column) => match &column.values {
            ColumnData::I8(column) => Some(Numbers::Column(column)),
            _ => None,
        },
        Operand::Constant(value) => {
            let number = i8_constant(value)?;
            Some(Numbers::Constant(number))
        }
    }
}

/// The same of 16 bits.
pub(crate) fn i16_numbers(operand: Operand<'_>) -> Option<Numbers<'_, i16>>
    ensures { IfSome result (λ numbers. (n : ℕ) → ints (λ x. x) (listed n numbers) ≡ values n operand.entry) }
{
    match operand {
        Operand::Column(column) => match &column.values {
            ColumnData::I16(column) => Some(Numbers::Column(column)),
            _ => None,
        },
        Operand::Constant(value) => {
            let number = i16_constant(value)?;
            Some(Numbers::Constant(number))
        }
    }
}

/// The same of 32 bits: dates too.
pub(crate) fn i32_numbers(operand: Operand<'_>) -> Option<Numbers<'_, i32>>
    ensures { IfSome result (λ numbers. (n : ℕ) → ints (λ x. x) (listed n numbers) ≡ values n operand.entry) }
{
    match operand {
        Operand::Column(column) => match &column.values {
            ColumnData::I32(column) => Some(Numbers::Column(column)),
            _ => None,
        },
        Operand::Constant(value) => {
            let number = i32_constant(value)?;
            Some(Numbers::Constant(number))
        }
    }
}

/// The same of 64 bits: timestamps too.
pub(crate) fn i64_numbers(operand: Operand<'_>) -> Option<Numbers<'_, i64>>
    ensures { IfSome result (λ numbers. (n : ℕ) → ints (λ x. x) (listed n numbers) ≡ values n operand.entry) }
{
    match operand {
        Operand::Column(column) => match &column.values {
            ColumnData::I64(column) => Some(Numbers::Column(column)),
            _ => None,
        },
        Operand::Constant(value) => {
            let number = i64_constant(value)?;
            Some(Numbers::Constant(number))
        }
    }
}

/// The numbers of decimals that an argument is, if it is made of them.
pub(crate) fn i128_numbers(operand: Operand<'_>) -> Option<Numbers<'_, i128>>
    ensures { IfSome result (λ numbers. (n : ℕ) → decs (λ x. x) (listed n numbers) ≡ values n operand.entry) }
{
    match operand {
        Operand::Column(column) => match &column.values {
            ColumnData::I128(column) => Some(Numbers::Column(column)),
            _ => None,
        },
        Operand::Constant(value) => {
            let number = i128_constant(value)?;
            Some(Numbers::Constant(number))
        }
    }
}

fn i8_constant(value: &Value) -> Option<Option<i8>>
    ensures { IfSome result (λ number. nullable.int_value number ≡ value.now) }
{
    match value {
        Value::Int(number) => Some(Some(i8::try_from(*number).ok()?)),
        Value::Null => Some(None),
        _ => None,
    }
}

fn i16_constant(value: &Value) -> Option<Option<i16>>
    ensures { IfSome result (λ number. nullable.int_value number ≡ value.now) }
{
    match value {
        Value::Int(number) => Some(Some(i16::try_from(*number).ok()?)),
        Value::Null => Some(None),
        _ => None,
    }
}

fn i32_constant(value: &Value) -> Option<Option<i32>>
    ensures { IfSome result (λ number. nullable.int_value number ≡ value.now) }
{
    match value {
        Value::Int(number) => Some(Some(i32::try_from(*number).ok()?)),
        Value::Null => Some(None),
        _ => None,
    }
}

fn i64_constant(value: &Value) -> Option<Option<i64>>
    ensures { IfSome result (λ number. nullable.int_value number ≡ value.now) }
{
    match value {
        Value::Int(number) => Some(Some(*number)),
        Value::Null => Some(None),
        _ => None,
    }
}

fn i128_constant(value: &Value) -> Option<Option<i128>>
    ensures { IfSome result (λ number. nullable.dec_value number ≡ value.now) }
{
    match value {
        Value::Dec(number) => Some(Some(*number)),
        Value::Null => Some(None),
        _ => None,
    }
}
