// A whole run: the numbers below a count, claimed, handed on and worked by many workers.
ghost use Rattle.std.specs.Prelude.{◌≡◌, ◌+◌, ◌≤◌, ◌^◌, ℕ, length, map, vec_len, IfOk};
ghost use Rattle.run_core.specs.Counts.{times};
ghost use Rattle.run_core.specs.Receipts.{lists_of, IsBalanced};
ghost use Rattle.hand_off_tests.specs.Crew.{numbers_of};

use crate::fork::run_crew;
use crate::numbers::Item;
use crate::parts::{Parts, crew_of, parts_of};
use hand_off::{HandOff, HandRest};
use run_core::Receipt;
use scan_claims::Claims;
use std::alloc::Global;
use std::sync::Wait;
use std::thread::Threads;
use sub_types::NoMemory;
use world::Gate;

/// What a run leaves: one receipt for each worker, and the numbers that were left in the queue.
#[derive(Debug, Drop)]
pub struct Finished {
    pub receipts: Vec<Receipt>,
    pub left: Vec<u64>,
}

/// The numbers that are left, from the front on.
pub fn numbers_left<H: Wait>(
    rt: &H,
    alloc: Global,
    mut rest: HandRest<Item>,
) -> Result<Vec<u64>, NoMemory>
    ensures { IfOk result (λ left. (x : ℕ) → times x (numbers_of rest.offered) ≡ times x (numbers_of rest.taken) + times x left.items) }
{
    let mut left = Vec::new(alloc);
    for _ in rt.forever() {
        let Some(item) = rest.next(rt) else {
            return Ok(left);
        };
        left.push(item.number())?;
    }
    unreachable!()
}

/// The numbers below `n`, worked by so many workers over a queue of `capacity` items, whatever their turns are.
pub fn run_numbers<H: Threads + Wait + Sync, G: Gate>(
    rt: &H,
    alloc: Global,
    n: u64,
    workers: u32,
    capacity: u32,
    gate: &G,
) -> Result<Finished, NoMemory>
    requires count { n ≤ 2 ^ 62 }
    requires workers { (1 ≤ workers) × (workers ≤ 64) }
    requires capacity { (1 ≤ capacity) × (capacity ≤ 1024) }
    ensures { IfOk result (λ run. IsBalanced n (map lists_of run.receipts.items) run.left.items) }
{
    let (claims, seats) = Claims::new(alloc, n, workers)?;
    let (hand, passes) = HandOff::new(rt, alloc, capacity, workers)?;
    let mut crew = crew_of(alloc, &claims, &hand, seats, passes)?;
    run_crew(rt, alloc, &claims, &hand, gate, crew.as_mut_slice());
    let Parts {
        seats,
        passes,
        receipts,
    } = parts_of(alloc, &claims, &hand, crew)?;
    let _drawn = claims.finish(seats);
    let rest = hand.finish(rt, passes);
    let left = numbers_left(rt, alloc, rest)?;
    Ok(Finished { receipts, left })
}
