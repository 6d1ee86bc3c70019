// Keys of two batches whose columns stand in other places.
ghost use Rattle.std.specs.Prelude.{◌≡◌, ◌∷◌, []};
ghost use Rattle.batch.specs.BatchRows.{types_of};
ghost use Rattle.row_keys_tests.specs.declared.batches.TheConstants.{NUMBER, BINARY};

use crate::batches::{five_rows, four_turned};
use batch::Batch;
use row_keys::{hash_keys, matching_keys, number_keys, same_keys_at, whole_keys};
use std::alloc::Global;
use sub_types::NoMemory;

// The pairs of rows with the same key, and whether null takes no part in it.
const PAIRS: [(u64, u64, bool); 4] = [(0, 0, true), (1, 2, false), (2, 0, true), (3, 1, false)];

fn is_pair(i: u64, j: u64, whole: bool) -> bool {
    for (left, right, is_whole) in PAIRS {
        if left == i && right == j {
            return is_whole || !whole;
        }
    }
    false
}

// Whether two rows are told apart as the list says.
fn is_told(left: &Batch, i: u64, right: &Batch, j: u64) -> bool
    requires left { types_of left.now ≡ NUMBER ∷ BINARY ∷ [] }
    requires right { types_of right.now ≡ BINARY ∷ NUMBER ∷ [] }
{
    if i >= left.rows || j >= right.rows || left.columns.len() != 2 || right.columns.len() != 2 {
        return false;
    }
    same_keys_at(left, i, &[0, 1], right, j, &[1, 0]) == is_pair(i, j, false)
        && matching_keys(left, i, &[0, 1], right, j, &[1, 0]) == is_pair(i, j, true)
}

// How many pairs of rows are told apart so.
fn told(left: &Batch, right: &Batch) -> u64
    requires left { types_of left.now ≡ NUMBER ∷ BINARY ∷ [] }
    requires right { types_of right.now ≡ BINARY ∷ NUMBER ∷ [] }
{
    let mut count: u64 = 0;
    for i in 0..5 {
        for j in 0..4 {
            count = count.saturating_add(u64::from(is_told(left, i, right, j)));
        }
    }
    count
}

// Whether rows with the same key have the same hash, and others another.
fn are_hashed(alloc: Global, left: &Batch, right: &Batch) -> Result<bool, NoMemory> {
    if left.columns.len() != 2 || right.columns.len() != 2 {
        return Ok(false);
    }
    let first = hash_keys(alloc, left, &[0, 1], 7)?;
    let second = hash_keys(alloc, right, &[1, 0], 7)?;
    for (i, hash) in first.iter().enumerate() {
        for (j, other) in second.iter().enumerate() {
            if (*hash == *other) != is_pair(i as u64, j as u64, false) {
                return Ok(false);
            }
        }
    }
    Ok(first.len() == 5 && second.len() == 4)
}

// Whether the rows without a null, and the numbers of the first column, are these.
fn are_whole(alloc: Global, left: &Batch) -> Result<bool, NoMemory> {
    if left.columns.len() != 2 {
        return Ok(false);
    }
    let whole = whole_keys(alloc, left, &[0, 1])?;
    let want = [true, false, true, false, true];
    for i in 0..want.len() {
        if i >= whole.len() || whole.get(i) != want[i] {
            return Ok(false);
        }
    }
    let none = number_keys(alloc, left, 1)?;
    match number_keys(alloc, left, 0)? {
        Some(numbers) => Ok(none.is_none() && numbers.as_slice() == [4, 0, 4, -1, 4].as_slice()),
        None => Ok(false),
    }
}

fn all_hold(alloc: Global) -> Result<bool, NoMemory> {
    let left = five_rows(alloc)?;
    let right = four_turned(alloc)?;
    let hashed = are_hashed(alloc, &left, &right)?;
    let whole = are_whole(alloc, &left)?;
    Ok(told(&left, &right) == 20 && hashed && whole)
}

#[test]
fn matches_of_two_sides(rt: HostRuntime) {
    let holds = matches!(all_hold(rt.alloc()), Ok(true));
    assert!(rt; holds);
}
