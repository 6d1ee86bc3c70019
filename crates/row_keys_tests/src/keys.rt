// Keys of two columns of one batch.
ghost use Rattle.std.specs.Prelude.{◌≡◌, ◌∷◌, [], IfOk};
ghost use Rattle.batch.specs.BatchRows.{types_of};

use crate::batches::five_rows;
use batch::Batch;
use rel_specs::KeyOrder;
use row_keys::{compare_keys, hash_key, key_bytes, same_keys};
use std::alloc::Global;
use std::cmp::Ordering;

// Two rows, and their order by the number, the greater first, and then by the binary value with nulls first.
const ORDERS: [(u64, u64, Ordering); 4] = [
    (0, 2, Ordering::Equal),
    (0, 3, Ordering::Less),
    (1, 3, Ordering::Greater),
    (0, 4, Ordering::Greater),
];

// Two rows, and whether their keys are the same.
const SAME: [(u64, u64, bool); 4] = [(0, 2, true), (1, 1, true), (1, 3, false), (0, 4, false)];

fn order(batch: &Batch, i: u64, j: u64) -> Option<Ordering> {
    if batch.columns.len() != 2 || i >= batch.rows || j >= batch.rows {
        return None;
    }
    let number = KeyOrder {
        column: 0,
        descending: true,
        nulls_first: false,
    };
    let binary = KeyOrder {
        column: 1,
        descending: false,
        nulls_first: true,
    };
    Some(compare_keys(batch, i, batch, j, &[number, binary]))
}

fn are_ordered(batch: &Batch) -> bool {
    for (i, j, want) in ORDERS {
        if order(batch, i, j) != Some(want) {
            return false;
        }
    }
    true
}

// Whether two rows are the same by their values, and by their hashes.
fn same(batch: &Batch, i: u64, j: u64) -> Option<(bool, bool)> {
    if batch.columns.len() != 2 || i >= batch.rows || j >= batch.rows {
        return None;
    }
    let hashes = hash_key(batch, &[0, 1], i, 7) == hash_key(batch, &[0, 1], j, 7);
    Some((same_keys(batch, i, batch, j, &[0, 1]), hashes))
}

fn are_same(batch: &Batch) -> bool {
    for (i, j, want) in SAME {
        if same(batch, i, j) != Some((want, want)) {
            return false;
        }
    }
    true
}

// Whether a row's key has these bytes.
fn has_bytes(alloc: Global, batch: &Batch, row: u64, want: &[u8]) -> bool {
    if batch.columns.len() != 2 || row >= batch.rows {
        return false;
    }
    match key_bytes(alloc, batch, &[0, 1], row) {
        Ok(bytes) => bytes.bytes() == want,
        Err(_) => false,
    }
}

fn have_bytes(alloc: Global, batch: &Batch) -> bool {
    has_bytes(alloc, batch, 1, &[0, 0])
        && has_bytes(
            alloc,
            batch,
            0,
            b"\x03\x04\0\0\0\0\0\0\0\x05\x02\0\0\0\0\0\0\0ab",
        )
        && has_bytes(alloc, batch, 3, b"\x03\xff\xff\xff\xff\xff\xff\xff\xff\0")
}

fn all_hold(alloc: Global) -> bool {
    match five_rows(alloc) {
        Ok(batch) => are_ordered(&batch) && are_same(&batch) && have_bytes(alloc, &batch),
        Err(_) => false,
    }
}

#[test]
fn order_bytes_and_hashes(rt: HostRuntime) {
    let holds = all_hold(rt.alloc());
    assert!(rt; holds);
}
