// Fetches.
ghost use Rattle.std.specs.Prelude.{◌≡◌, ◌≤◌, drop, length};
ghost use Rattle.plan_denote.specs.Fetch as spec;
ghost use Rattle.row_steps.specs.Seen.{seen};

use crate::stream::{RowStream, Stream};
use plan_leaves::Items;
use sub_types::{Fault, Value};

/// The rows from a place on: so many at most, or all. A fault behind the last row that is asked for isn't shown.
pub fn fetched(offset: u64, count: Option<u64>, input: RowStream) -> RowStream
    ensures { seen result ≡ spec.fetched offset count (seen input) }
{
    let Stream { rows, end } = input;
    let end = window_end(offset, count, rows.len(), end);
    Stream {
        rows: window(offset, count, rows),
        end,
    }
}

/// No fault where the input has all the rows that are asked for, and else what ends the input.
fn window_end(offset: u64, count: Option<u64>, rows: usize, end: Option<Fault>) -> Option<Fault>
    ensures { result ≡ spec.end_of_window offset count rows end }
{
    match count {
        Some(count) if offset as u128 + count as u128 <= rows as u128 => None,
        _ => end,
    }
}

fn window(offset: u64, count: Option<u64>, rows: Items<Items<Value>>) -> Items<Items<Value>>
    ensures { result ≡ spec.window offset count rows }
{
    let mut rows = rows_from(offset, rows.into_vec());
    if let Some(count) = count {
        if count < rows.len() as u64 {
            rows.truncate(count as usize);
        }
    }
    Items::from_vec(rows)
}

/// The rows from a place on.
fn rows_from(offset: u64, rows: Vec<Items<Value>>) -> Vec<Items<Value>>
    ensures { result.items ≡ drop offset rows.items }
{
    let mut rows = rows;
    let skipped = rows.len().min(offset as usize);
    let kept = rows.len() - skipped;
    rows.rotate_left(skipped);
    rows.truncate(kept);
    rows
}
