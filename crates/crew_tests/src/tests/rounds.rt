// Rounds of many workers, with a gate that gives way to others before each number.
use crate::pieces::run_piece_halves;
use crate::run::run_halves;
use crew_round::Round;
use pipe_labour::Item;
use std::thread;
use sub_types::NoMemory;
use world::Gate;

#[derive(Drop)]
struct YieldingGate;

impl Gate for YieldingGate {
    fn before(&self, _worker: u32, _number: u64) {
        thread::yield_now();
    }
}

// Whether so many workers gave the half of each number below the end, in order.
fn are_halves(run: Result<Round<Item<u64>>, NoMemory>, workers: usize, end: u64) -> bool {
    let Ok(run) = run else {
        return false;
    };
    for (place, out) in run.outs.iter().enumerate() {
        if out.number != place as u64 || out.value != place as u64 / 2 {
            return false;
        }
    }
    run.receipts.len() == workers && run.outs.len() as u64 == end
}

#[test]
fn each_number_once_in_order(rt: HostRuntime) {
    assert!(rt; are_halves(run_halves(&rt, rt.alloc(), 0, 3, &YieldingGate), 3, 0));
    assert!(rt; are_halves(run_halves(&rt, rt.alloc(), 5, 1, &YieldingGate), 1, 5));
    assert!(rt;
        are_halves(
            run_halves(&rt, rt.alloc(), 1000, 64, &YieldingGate),
            64,
            1000
        )
    );
}

// Whether so many workers gave the halves of three pieces, in order.
fn are_halves_of_pieces(run: Result<Round<Item<u64>>, NoMemory>, workers: usize) -> bool {
    let Ok(run) = run else {
        return false;
    };
    run.receipts.len() == workers
        && run.outs.len() == 3
        && run.outs[0].value == 4
        && run.outs[1].value == 0
        && run.outs[2].value == 3
}

#[test]
fn each_piece_once_in_order(rt: HostRuntime) {
    assert!(rt;
        are_halves_of_pieces(
            run_piece_halves(&rt, rt.alloc(), &[9, 1, 6], 1, &YieldingGate),
            1
        )
    );
    assert!(rt;
        are_halves_of_pieces(
            run_piece_halves(&rt, rt.alloc(), &[9, 1, 6], 64, &YieldingGate),
            64
        )
    );
}

// Whether the one worker claimed, offered, took and finished these, and none is left.
fn is_of_one(run: Result<Round<Item<u64>>, NoMemory>, all: &[u64]) -> bool {
    let Ok(run) = run else {
        return false;
    };
    match run.receipts.as_slice() {
        [receipt] => run.left.is_empty()
            && receipt.claimed.as_slice() == all
            && receipt.offered.as_slice() == all
            && receipt.taken.as_slice() == all
            && receipt.finished.as_slice() == all,
        _ => false,
    }
}

#[test]
fn one_worker_passes_each_number_through_the_queue(rt: HostRuntime) {
    assert!(rt; is_of_one(run_halves(&rt, rt.alloc(), 1, 1, &YieldingGate), &[0]));
    assert!(rt;
        is_of_one(
            run_halves(&rt, rt.alloc(), 5, 1, &YieldingGate),
            &[0, 1, 2, 3, 4]
        )
    );
}
