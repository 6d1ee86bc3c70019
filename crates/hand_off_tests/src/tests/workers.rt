// Whole runs.
use crate::run::{Finished, run_numbers};
use std::alloc::Global;
use sub_types::NoMemory;
use world::OpenGate;

// Whether the one worker claimed, offered, took and finished these, and none is left.
fn is_of_one(run: Result<Finished, NoMemory>, all: &[u64]) -> bool {
    let Ok(run) = run else {
        return false;
    };
    match run.receipts.as_slice() {
        [receipt] => run.left.is_empty()
            && receipt.claimed.as_slice() == all
            && receipt.offered.as_slice() == all
            && receipt.taken.as_slice() == all
            && receipt.finished.as_slice() == all,
        _ => false,
    }
}

#[test]
fn one_worker_passes_each_number_through_the_queue(rt: HostRuntime) {
    let run = run_numbers(&rt, rt.alloc(), 5, 1, 2, &OpenGate);
    assert!(rt; is_of_one(run, &[0, 1, 2, 3, 4]));
}

// The numbers that were finished or are left, in order.
fn numbers_of(alloc: Global, run: &Finished) -> Result<Vec<u64>, NoMemory> {
    let mut all = Vec::new(alloc);
    for receipt in &run.receipts {
        all.extend_from_slice(receipt.finished.as_slice())?;
    }
    all.extend_from_slice(run.left.as_slice())?;
    all.sort()?;
    Ok(all)
}

fn are_counted(numbers: &[u64]) -> bool {
    for (place, number) in numbers.iter().enumerate() {
        if *number != place as u64 {
            return false;
        }
    }
    true
}

// Whether so many workers finished or left each number below the end once.
fn is_of_many(alloc: Global, run: Result<Finished, NoMemory>, workers: usize, end: usize) -> bool {
    let Ok(run) = run else {
        return false;
    };
    match numbers_of(alloc, &run) {
        Ok(all) => run.receipts.len() == workers && all.len() == end && are_counted(&all),
        Err(_) => false,
    }
}

#[test]
fn many_workers_over_many_numbers(rt: HostRuntime) {
    let run = run_numbers(&rt, rt.alloc(), 10000, 64, 128, &OpenGate);
    assert!(rt; is_of_many(rt.alloc(), run, 64, 10000));
}
