// What a run reports: its rows, and the receipts of its workers.
use super::answered::{put, put_repeated, run_words};
use super::plans::{BEHIND_FIRST_OF_T, MANY_ROWS_HEAD, MANY_ROWS_TAIL, NO_ROWS, ROW, X_OF_T};
use run_top::{PipeReceipt, Status};
use std::alloc::Global;
use std::marker::Sync;
use std::sync::Wait;
use std::thread::Threads;
use test_bytes::{THREE_ROWS_FILE, THREE_ROWS_PLAN};
use world::MemFolder;

// The rows of a report with one receipt, its batches and its workers.
type Counts = (u64, u64, usize);

// The number of the read relation of a plan that has nothing else, and of one with a fetch before it.
const ALONE: u32 = 0;

const BEHIND_FETCH: u32 = 1;

fn counts_of(status: &Status) -> Option<Counts> {
    let Status::Ok(report) = status else {
        return None;
    };
    let [receipt] = report.receipts.as_slice() else {
        return None;
    };
    Some((report.rows, receipt.batches, receipt.workers.len()))
}

// The only receipt of a report, where it is of this relation.
fn receipt_of(status: &Status, relation: u32) -> Option<&PipeReceipt> {
    let Status::Ok(report) = status else {
        return None;
    };
    match report.receipts.as_slice() {
        [receipt] if receipt.relation == relation => Some(receipt),
        _ => None,
    }
}

// A folder with plans of virtual tables, `p`, `e` and `m`, two over the table `t`, `x` and `f`, of which `f` goes by pipelines, and a file
// of three rows, `g`.
fn folder_of(alloc: Global) -> MemFolder {
    let mut folder = MemFolder::new(alloc);
    let _ = folder.put_file("p", &THREE_ROWS_PLAN);
    let _ = folder.put_file("g", &THREE_ROWS_FILE);
    put(alloc, &mut folder, "e", NO_ROWS);
    put(alloc, &mut folder, "x", X_OF_T);
    put(alloc, &mut folder, "f", BEHIND_FIRST_OF_T);
    let many = (MANY_ROWS_HEAD, ROW, MANY_ROWS_TAIL);
    put_repeated(alloc, &mut folder, "m", many, 1_025);
    folder
}

// Whether the run of the words reports this.
fn reports<H: Threads + Wait + Sync>(
    rt: &H,
    alloc: Global,
    folder: &mut MemFolder,
    words: &[&str],
    counts: Counts,
) -> bool {
    match run_words(rt, alloc, folder, words) {
        Ok(answered) => counts_of(&answered.status) == Some(counts),
        Err(_) => false,
    }
}

#[test]
fn rows_batches_and_workers(rt: HostRuntime) {
    let mut folder = folder_of(rt.alloc());
    let runs: [(&[&str], Counts); 8] = [
        (&["run", "p", "o", "1"], (3, 1, 1)),
        (&["run", "p", "o", "64"], (3, 1, 64)),
        (&["run", "e", "o", "1"], (0, 0, 1)),
        (&["run", "x", "o", "3", "t=g", "t=g"], (6, 2, 3)),
        (&["run", "f", "o", "1", "t=g", "t=g"], (5, 2, 1)),
        (&["run", "f", "o", "64", "t=g", "t=g"], (5, 2, 64)),
        (&["run", "m", "n", "2"], (1_025, 2, 2)),
        // the two batches that were written by the run before, and one of another file
        (&["run", "x", "o", "3", "t=n", "t=g"], (1_028, 3, 3)),
    ];
    for (words, counts) in runs {
        assert!(rt; reports(&rt, rt.alloc(), &mut folder, words, counts));
    }
}

// Whether the one worker claimed, handed on, took and finished these, in order, and none is left.
fn is_of_one(receipt: &PipeReceipt, all: &[u64]) -> bool {
    match receipt.workers.as_slice() {
        [worker] => worker.claimed.as_slice() == all
            && worker.offered.as_slice() == all
            && worker.taken.as_slice() == all
            && worker.finished.as_slice() == all
            && receipt.left.is_empty(),
        _ => false,
    }
}

// How often a number stands in the lists of claims, and how often it was finished or is left.
fn counts_in(receipt: &PipeReceipt, number: u64) -> (usize, usize) {
    let mut claimed: usize = 0;
    let mut done = times(&receipt.left, number);
    for worker in receipt.workers.as_slice() {
        claimed = claimed.saturating_add(times(&worker.claimed, number));
        done = done.saturating_add(times(&worker.finished, number));
    }
    (claimed, done)
}

fn times(numbers: &[u64], number: u64) -> usize {
    numbers.iter().filter(|&&other| other == number).count()
}

// Whether each number below this one was claimed once, and finished once or left, and no other.
fn is_each_once(receipt: &PipeReceipt, batches: u64) -> bool {
    for number in 0..batches {
        if counts_in(receipt, number) != (1, 1) {
            return false;
        }
    }
    counts_in(receipt, batches) == (0, 0)
}

// Whether the run of the words has one receipt, of this relation and of one worker that did these batches.
fn is_done_alone<H: Threads + Wait + Sync>(
    rt: &H,
    alloc: Global,
    folder: &mut MemFolder,
    words: &[&str],
    relation: u32,
    all: &[u64],
) -> bool {
    match run_words(rt, alloc, folder, words) {
        Ok(answered) => match receipt_of(&answered.status, relation) {
            Some(receipt) => is_of_one(receipt, all),
            None => false,
        },
        Err(_) => false,
    }
}

// Whether the run of the words has one receipt, of this relation and of so many batches that were done once each.
fn is_done_once<H: Threads + Wait + Sync>(
    rt: &H,
    alloc: Global,
    folder: &mut MemFolder,
    words: &[&str],
    relation: u32,
    batches: u64,
) -> bool {
    match run_words(rt, alloc, folder, words) {
        Ok(answered) => match receipt_of(&answered.status, relation) {
            Some(receipt) => is_each_once(receipt, batches),
            None => false,
        },
        Err(_) => false,
    }
}

#[test]
fn one_worker_passes_each_batch_through_the_queue(rt: HostRuntime) {
    let alloc = rt.alloc();
    let mut folder = folder_of(alloc);
    let one = ["run", "x", "o", "1", "t=g"];
    assert!(rt; is_done_alone(&rt, alloc, &mut folder, &one, ALONE, &[0]));
    let five = ["run", "x", "o", "1", "t=g", "t=g", "t=g", "t=g", "t=g"];
    assert!(rt; is_done_alone(&rt, alloc, &mut folder, &five, ALONE, &[0, 1, 2, 3, 4]));
    let behind = ["run", "f", "o", "1", "t=g", "t=g", "t=g", "t=g", "t=g"];
    assert!(rt;
        is_done_alone(
            &rt,
            alloc,
            &mut folder,
            &behind,
            BEHIND_FETCH,
            &[0, 1, 2, 3, 4]
        )
    );
}

#[test]
fn many_workers_claim_each_batch_once(rt: HostRuntime) {
    let alloc = rt.alloc();
    let mut folder = folder_of(alloc);
    let two = ["run", "x", "o", "3", "t=g", "t=g"];
    assert!(rt; is_done_once(&rt, alloc, &mut folder, &two, ALONE, 2));
    let five = ["run", "x", "o", "64", "t=g", "t=g", "t=g", "t=g", "t=g"];
    assert!(rt; is_done_once(&rt, alloc, &mut folder, &five, ALONE, 5));
    let behind = ["run", "f", "o", "3", "t=g", "t=g", "t=g", "t=g", "t=g"];
    assert!(rt; is_done_once(&rt, alloc, &mut folder, &behind, BEHIND_FETCH, 5));
}
