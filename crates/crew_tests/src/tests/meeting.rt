// Two workers that must meet: the gate holds the first number until the second is asked for.
use crate::run::run_halves;
use std::alloc::Global;
use std::marker::Sync;
use std::sync::Wait;
use std::sync::atomic::{AtomicBool, Ordering};
use std::thread;
use std::thread::Threads;
use world::Gate;

const MOST_TURNS: u32 = 10_000_000;

#[derive(Drop)]
struct MeetingGate {
    second_asked: AtomicBool,
    limit_reached: AtomicBool,
}

impl Gate for MeetingGate {
    fn before(&self, _worker: u32, number: u64) {
        if number == 1 {
            self.second_asked.store(true, Ordering::SeqCst);
        }
        if number != 0 {
            return;
        }
        for _ in 0..MOST_TURNS {
            if self.second_asked.load(Ordering::SeqCst) {
                return;
            }
            thread::yield_now();
        }
        self.limit_reached.store(true, Ordering::SeqCst);
    }
}

// Whether both workers ran to their end, and the second number was asked for in time.
fn meet<H: Threads + Wait + Sync>(rt: &H, alloc: Global) -> bool {
    let gate = MeetingGate {
        second_asked: AtomicBool::new(false),
        limit_reached: AtomicBool::new(false),
    };
    match run_halves(rt, alloc, 2, 2, &gate) {
        Ok(run) => run.receipts.len() == 2 && !gate.limit_reached.load(Ordering::SeqCst),
        Err(_) => false,
    }
}

#[test]
fn two_workers_meet_at_the_gate(rt: HostRuntime) {
    assert!(rt; meet(&rt, rt.alloc()));
}
