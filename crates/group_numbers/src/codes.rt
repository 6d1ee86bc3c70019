// Keys of short texts as numbers.
ghost use Rattle.std.specs.Prelude.{◌≡◌, ◌+◌, ◌*◌, ◌<◌, length, true, option_copied, All, IfOk, IfSome};
ghost use Rattle.batch.specs.ColumnValues.{values_of};
ghost use Rattle.group_numbers.specs.Codes.{AreCodes, TellValues, AreWithTexts, IsWithBytes, IsWithText};

use crate::numbers::column_at;
use batch::{Batch, ColumnData};
use col_text::TextCol;
use std::alloc::Global;
use sub_types::NoMemory;

/// A code below this has room for a digit more.
const ROOM: u128 = 1 << 120;

/// How many bytes a text has at most that is in a code.
const SHORT: usize = 15;

/// For each row of a batch a number that only rows with the same key have, if the key's columns are of texts and those of
/// each row are short.
pub(crate) fn key_codes(
    alloc: Global,
    batch: &Batch,
    columns: &[u32],
) -> Result<Option<Vec<u128>>, NoMemory>
    requires { All (λ column. column < length batch.now.columns.items) columns.now }
    ensures { IfOk result (λ codes. IfSome codes (λ codes. AreCodes columns.now batch.now codes.items)) }
{
    if !may_be_short(batch, columns) {
        return Ok(None);
    }
    let mut codes = vec![in alloc; 0u128; batch.rows as usize]?;
    for column in columns {
        if !add_column(&mut codes, column_at(batch, *column)) {
            return Ok(None);
        }
    }
    Ok(Some(codes))
}

// Whether the columns are of texts that have no more bytes together than short ones can have. If not, codes would be made in vain.
fn may_be_short(batch: &Batch, columns: &[u32]) -> bool
    requires { All (λ column. column < length batch.now.columns.items) columns.now }
{
    let mut bytes: usize = 0;
    for column in columns {
        let Some(more) = bytes_in(column_at(batch, *column)) else {
            return false;
        };
        bytes = bytes.saturating_add(more);
    }
    bytes / SHORT <= batch.rows as usize
}

// How many bytes the texts of a column have, if it is of texts.
fn bytes_in(column: &ColumnData) -> Option<usize> {
    match column {
        ColumnData::Bytes(column) => Some(column.bytes().len()),
        _ => None,
    }
}

// Puts the values of a column behind the codes, if they are short texts.
fn add_column(codes: &mut [u128], column: &ColumnData) -> bool
    requires { length codes.old ≡ length (values_of column.now) }
    ensures { result ≡ true → TellValues codes.old codes.new (values_of column.now) }
{
    match column {
        ColumnData::Bytes(column) => add_texts(codes, column),
        _ => false,
    }
}

fn add_texts(codes: &mut [u128], column: &TextCol) -> bool
    requires { length codes.old ≡ length column.now }
    ensures { result ≡ true → AreWithTexts codes.old codes.new column.now }
{
    for row in 0..codes.len() {
        let Some(code) = with_text(codes[row], column.value_at(row)) else {
            return false;
        };
        codes[row] = code;
    }
    true
}

// The code with a text's bytes behind it, and behind them how many they are; with 0 for a null.
#[inline(always)]
fn with_text(code: u128, text: Option<&[u8]>) -> Option<u128>
    ensures { IfSome result (λ more. IsWithText code (option_copied text.entry) more) }
{
    let Some(text) = text else {
        return with_digit(code, 0);
    };
    if text.len() > SHORT {
        return None;
    }
    let code = with_bytes(code, text)?;
    with_digit(code, text.len() as u8 + 1)
}

#[inline(always)]
fn with_bytes(code: u128, bytes: &[u8]) -> Option<u128>
    ensures { IfSome result (λ more. IsWithBytes code bytes.now more) }
{
    let mut code = code;
    for byte in bytes {
        code = with_digit(code, *byte)?;
    }
    Some(code)
}

// The code with one more digit to base 256 behind it.
#[inline(always)]
fn with_digit(code: u128, digit: u8) -> Option<u128>
    ensures { IfSome result (λ more. more ≡ code * 256 + digit) }
{
    if code >= ROOM {
        return None;
    }
    Some(code * 256 + u128::from(digit))
}
