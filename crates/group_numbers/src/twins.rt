// Rows of a batch whose keys are those of rows before them.
ghost use Rattle.std.specs.Prelude.{◌≡◌, ◌<◌, ◌≤◌, ℕ, List, length, slice_index, All, IfOk};
ghost use Rattle.batch.specs.declared.batch.Batch.{Batch};
ghost use Rattle.row_keys.specs.Keys.{key_of};
ghost use Rattle.group_numbers.specs.Codes.{AreCodes};
ghost use Rattle.group_numbers.specs.Twins.{AreTwins};

use crate::codes::key_codes;
use batch::Batch;
use row_keys::{hash_keys, same_keys};
use std::alloc::Global;
use sub_types::NoMemory;

/// In how many places rows are remembered.
const PLACES: usize = 256;

/// What codes are multiplied by, so that the first digit of the product depends on all of a code's.
const FACTOR: u128 = 0x9e37_79b9_7f4a_7c15_f39c_c060_5ced_c835;

/// For each row of a batch a row with the same key: one before it that is remembered, or else the row itself. The last row of each
/// place is remembered, so that a few keys that come again and again are found without a search, whatever the places.
pub(crate) fn twins_of(alloc: Global, batch: &Batch, columns: &[u32]) -> Result<Vec<u64>, NoMemory>
    requires columns { All (λ column. column < length batch.now.columns.items) columns.now }
    ensures { IfOk result (λ twins. AreTwins columns.now batch.now batch.now.rows twins.items) }
{
    if let Some(codes) = key_codes(alloc, batch, columns)? {
        let twins = twins_by_codes(alloc, &codes)?;
        return Ok(twins);
    }
    twins_by_hashes(alloc, batch, columns)
}

// Rows have places by their keys' codes, which tell the keys apart.
fn twins_by_codes(alloc: Global, codes: &[u128]) -> Result<Vec<u64>, NoMemory>
    ensures { IfOk result (λ twins. (columns : List ℕ) (batch : Batch) → AreCodes columns batch codes.now → AreTwins columns batch batch.rows twins.items) }
{
    let mut remembered = vec![in alloc; 0usize; PLACES]?;
    let mut twins = Vec::with_capacity(alloc, codes.len())?;
    for row in 0..codes.len() {
        let place = place_of_code(codes[row]);
        let twin = twin_by_code(codes, remembered[place], row);
        remembered[place] = row;
        twins.push_reserved(twin as u64);
    }
    Ok(twins)
}

/// Where rows of a code are remembered.
#[inline(always)]
fn place_of_code(code: u128) -> usize
    ensures { result < 256 }
{
    (code.wrapping_mul(FACTOR) >> 120) as usize
}

/// The remembered row, if a row behind it has the same code, and else that row.
#[inline(always)]
fn twin_by_code(codes: &[u128], remembered: usize, row: usize) -> usize
    requires remembered { remembered ≤ row }
    requires row { row < length codes.now }
    ensures before { result ≤ row }
    ensures same { slice_index codes.now result ≡ slice_index codes.now row }
{
    if codes[remembered] == codes[row] {
        return remembered;
    }
    row
}

// Rows have places by their keys' hashes, and their keys are compared in the columns.
fn twins_by_hashes(alloc: Global, batch: &Batch, columns: &[u32]) -> Result<Vec<u64>, NoMemory>
    requires columns { All (λ column. column < length batch.now.columns.items) columns.now }
    ensures { IfOk result (λ twins. AreTwins columns.now batch.now batch.now.rows twins.items) }
{
    let hashes = hash_keys(alloc, batch, columns, 0)?;
    let mut remembered = vec![in alloc; 0u64; PLACES]?;
    let mut twins = Vec::with_capacity(alloc, batch.rows as usize)?;
    for row in 0..batch.rows {
        let place = place_of_hash(hashes[row as usize]);
        let twin = twin_of(batch, columns, remembered[place], row);
        remembered[place] = row + 1;
        twins.push(twin)?;
    }
    Ok(twins)
}

/// Where rows of a hash are remembered.
fn place_of_hash(hash: u64) -> usize
    ensures { result < 256 }
{
    (hash % PLACES as u64) as usize
}

/// The last of so many rows, if a row behind them has the same key, and else that row.
fn twin_of(batch: &Batch, columns: &[u32], rows: u64, row: u64) -> u64
    requires rows { rows ≤ row }
    requires row { row < batch.now.rows }
    requires columns { All (λ column. column < length batch.now.columns.items) columns.now }
    ensures before { result ≤ row }
    ensures same { key_of columns.now batch.now result ≡ key_of columns.now batch.now row }
{
    if rows == 0 {
        return row;
    }
    let last = rows - 1;
    if same_keys(batch, last, batch, row, columns) {
        return last;
    }
    row
}
