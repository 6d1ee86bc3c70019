// Batches with faults: which rows come before the fault, and which fault it is.
use super::batches::checked;
use std::alloc::Global;
use sub_types::{Fault, FaultKind};

const MOST: usize = 1_048_576;

// Whether so many rows come before this fault, or all rows come where there is none.
fn ends(
    alloc: Global,
    first: &[Option<usize>],
    second: &[Option<usize>],
    nullable: (bool, bool),
    rows: u64,
    kind: Option<FaultKind>,
) -> bool {
    let fault = kind.map(|kind| Fault { relation: 7, kind });
    match checked(alloc, first, second, nullable) {
        Ok(Some(piece)) => piece.batch.rows == rows && piece.end == fault,
        _ => false,
    }
}

#[test]
fn text_too_long(rt: HostRuntime) {
    let alloc = rt.alloc();
    let short = [Some(0), Some(1), None];
    let most = [Some(MOST), Some(2), Some(MOST)];
    assert!(rt; ends(alloc, &most, &short, (true, true), 3, None));
    let long = [Some(0), None, Some(MOST + 1)];
    let too_long = Some(FaultKind::TextTooLong);
    assert!(rt; ends(alloc, &short, &long, (true, true), 2, too_long));
}

#[test]
fn first_fault_of_two_columns(rt: HostRuntime) {
    let alloc = rt.alloc();
    let null = [Some(0), None, Some(1)];
    let long = [Some(0), Some(MOST + 1), None];
    // The first column's fault at one row, whatever stands in the second.
    let missing = Some(FaultKind::NullInRequired);
    assert!(rt; ends(alloc, &null, &long, (false, false), 1, missing));
    let too_long = Some(FaultKind::TextTooLong);
    assert!(rt; ends(alloc, &long, &null, (false, false), 1, too_long));
    // The least row, in whatever column.
    let late = [Some(0), Some(1), None];
    assert!(rt; ends(alloc, &late, &long, (false, false), 1, too_long));
    assert!(rt; ends(alloc, &late, &null, (true, true), 3, None));
}

#[test]
fn first_null_behind_full_bytes(rt: HostRuntime) {
    let alloc = rt.alloc();
    let missing = Some(FaultKind::NullInRequired);
    for place in 0..20 {
        let mut sizes = [Some(1); 20];
        assert!(rt; ends(alloc, &sizes, &sizes, (false, false), 20, None));
        sizes[place] = None;
        assert!(rt; ends(alloc, &sizes, &sizes, (true, false), place as u64, missing));
    }
}
