// Two workers that must meet: the gate holds the first batch until the second is asked for, so that a run which does its
// work on the calling thread alone, with receipts that are made up, doesn't pass.
use super::answered::{put, run_words_at};
use super::plans::{BEHIND_FIRST_OF_T, X_OF_T};
use run_top::{PipeReceipt, Status};
use std::alloc::Global;
use std::marker::Sync;
use std::sync::Wait;
use std::sync::atomic::{AtomicBool, Ordering};
use std::thread;
use std::thread::Threads;
use test_bytes::THREE_ROWS_FILE;
use world::{Gate, MemFolder};

const MOST_TURNS: u32 = 10_000_000;

#[derive(Drop)]
struct MeetingGate {
    second_asked: AtomicBool,
    limit_reached: AtomicBool,
}

impl Gate for MeetingGate {
    fn before(&self, _worker: u32, number: u64) {
        if number == 1 {
            self.second_asked.store(true, Ordering::SeqCst);
        }
        if number != 0 {
            return;
        }
        for _ in 0..MOST_TURNS {
            if self.second_asked.load(Ordering::SeqCst) {
                return;
            }
            thread::yield_now();
        }
        self.limit_reached.store(true, Ordering::SeqCst);
    }
}

// Whether the worker with this number claimed one batch.
fn claimed_one(receipt: &PipeReceipt, worker: usize) -> bool {
    match receipt.workers.as_slice().get(worker) {
        Some(lists) => lists.claimed.len() == 1,
        None => false,
    }
}

// Whether it is a receipt of two batches, of which each of two workers claimed one.
fn shows_two(status: &Status) -> bool {
    let Status::Ok(report) = status else {
        return false;
    };
    match report.receipts.as_slice() {
        [receipt] => { receipt.batches == 2 && claimed_one(receipt, 0) && claimed_one(receipt, 1) }
        _ => false,
    }
}

// Whether two workers run the plan to its end, and the second batch is asked for in time.
fn meet<H: Threads + Wait + Sync>(
    rt: &H,
    alloc: Global,
    folder: &mut MemFolder,
    plan: &str,
) -> bool {
    let gate = MeetingGate {
        second_asked: AtomicBool::new(false),
        limit_reached: AtomicBool::new(false),
    };
    match run_words_at(
        rt,
        alloc,
        folder,
        &["run", plan, "o", "2", "t=g", "t=g"],
        &gate,
    ) {
        Ok(answered) => shows_two(&answered.status) && !gate.limit_reached.load(Ordering::SeqCst),
        Err(_) => false,
    }
}

// A plan that is a read and nothing else, and one that goes by pipelines.
#[test]
fn gate_needs_two_threads(rt: HostRuntime) {
    let alloc = rt.alloc();
    let mut folder = MemFolder::new(alloc);
    let _ = folder.put_file("g", &THREE_ROWS_FILE);
    put(alloc, &mut folder, "x", X_OF_T);
    put(alloc, &mut folder, "f", BEHIND_FIRST_OF_T);
    assert!(rt; meet(&rt, alloc, &mut folder, "x"));
    assert!(rt; meet(&rt, alloc, &mut folder, "f"));
}
