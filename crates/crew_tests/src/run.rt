// The numbers below a count, halved by many workers.
ghost use Rattle.std.specs.Prelude.{◌≡◌, ◌≤◌, ◌/◌, ◌^◌, All, map, vec_len, IfOk};
ghost use Rattle.std.specs.List.{range_with_len};
ghost use Rattle.run_core.specs.Receipts.{lists_of, IsBalanced};
ghost use Rattle.crew_tests.specs.Halvers.{IsNew};

use crate::halves::{Half, Numbers};
use crew_round::{Round, run_round};
use pipe_labour::{Item, PipeLabour};
use std::alloc::Global;
use std::sync::Wait;
use std::thread::Threads;
use sub_types::NoMemory;
use world::Gate;

type Halver = PipeLabour<Numbers, Half, u64>;

// A labour that has done nothing yet.
fn halver(alloc: Global) -> Halver
    ensures { IsNew result }
{
    PipeLabour::new(alloc, Numbers::new(alloc), Half)
}

// So many of them.
fn halvers(alloc: Global, workers: u32) -> Result<Vec<Halver>, NoMemory>
    ensures count { IfOk result (λ labours. vec_len labours ≡ workers) }
    ensures fresh { IfOk result (λ labours. All IsNew labours.items) }
{
    let mut labours = Vec::with_capacity(alloc, workers as usize)?;
    for _ in 0..workers {
        labours.push_reserved(halver(alloc));
    }
    Ok(labours)
}

/// The halves of the numbers below `n`, in order, by so many workers, whatever their turns are.
pub fn run_halves<H: Threads + Wait + Sync, G: Gate>(
    rt: &H,
    alloc: Global,
    n: u64,
    workers: u32,
    gate: &G,
) -> Result<Round<Item<u64>>, NoMemory>
    requires count { n ≤ 2 ^ 62 }
    requires workers { (1 ≤ workers) × (workers ≤ 64) }
    ensures balanced { IfOk result (λ r. IsBalanced n (map lists_of r.receipts.items) r.left.items) }
    ensures numbers { IfOk result (λ r. map (λ out. out.number) r.outs.items ≡ range_with_len 0 n) }
    ensures halves { IfOk result (λ r. All (λ out. out.value ≡ out.number / 2) r.outs.items) }
{
    let mut labours = halvers(alloc, workers)?;
    let round = run_round(rt, alloc, n, &mut labours, gate)?;
    Ok(round)
}
