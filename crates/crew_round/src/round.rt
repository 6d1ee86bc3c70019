// A whole round.
ghost use Rattle.std.specs.Prelude.{◌≡◌, ◌≤◌, ◌^◌, ℕ, All, map, sum_by, vec_len, IfOk, OnOk};
ghost use Rattle.std.specs.List.{range_with_len};
ghost use Rattle.run_core.specs.Counts.{times, once_below};
ghost use Rattle.run_core.specs.Receipts.{lists_of, IsBalanced};
ghost use Rattle.crew.specs.Labours.{labour_view, IsFresh};
ghost use Rattle.crew_round.specs.Fair.{IsFair};

use crate::close::close_round;
use crew::{Gives, Parts, parts_of, run_workers, workers_of};
use hand_off::{HandOff, Numbered};
use run_core::Receipt;
use scan_claims::Claims;
use std::alloc::Global;
use std::marker::{Send, Sync};
use std::sync::Wait;
use std::thread::Threads;
use sub_types::NoMemory;
use world::Gate;

/// What a round leaves: one receipt for each worker, the numbers that the caller worked, and all outcomes in the
/// order of their numbers.
#[derive(Debug, Drop)]
pub struct Round<O> {
    pub receipts: Vec<Receipt>,
    pub left: Vec<u64>,
    pub outs: Vec<O>,
}

/// Loads and works the numbers below `n`, one worker a labour, whatever their turns are. There are no more threads than numbers. What the workers leave in
/// their queue, which takes twice as many items as there are workers, the last labour works at the end. Each labour
/// stays in its place, also without memory.
pub fn run_round<H: Threads + Wait + Sync, T: Numbered, L: Gives<T> + Send + Drop, G: Gate>(
    rt: &H,
    alloc: Global,
    n: u64,
    labours: &mut Vec<L>,
    gate: &G,
) -> Result<Round<L::Out>, NoMemory>
    requires count { n ≤ 2 ^ 62 }
    requires workers { (1 ≤ vec_len labours.old) × (vec_len labours.old ≤ 64) }
    requires fresh { All (IsFresh (λ l. labour_view (L.about l) (L.loaded l) (L.results l) (L.failures l))) labours.old.items }

    // The labours speak of what they spoke of before, in their places.
    ensures about { map L.about labours.new.items ≡ map L.about labours.old.items }

    // Each number was claimed and loaded once, and finished by one worker or by the caller.
    ensures workers { IfOk result (λ r. vec_len r.receipts ≡ vec_len labours.old) }
    ensures balanced { IfOk result (λ r. IsBalanced n (map lists_of r.receipts.items) r.left.items) }
    ensures loaded { OnOk result ((x : ℕ) → sum_by (λ l. times x (L.loaded l)) labours.new.items ≡ once_below x n) }

    // The outcomes are those of 0, 1, .. in this order, and each fits an item that is right.
    ensures numbers { IfOk result (λ r. map L.Out.number_of r.outs.items ≡ range_with_len 0 n) }
    ensures fair { IfOk result (λ r.
        (a : L.About) → All (λ l. L.about l ≡ a) labours.old.items
        → All (IsFair L.right L.failed L.fits a (sum_by L.failures labours.new.items)) r.outs.items) }
{
    let workers = labours.len();
    let threads = threads_for(n, workers);
    let (claims, seats) = Claims::new(alloc, n, workers as u32)?;
    let (hand, passes) = HandOff::new(rt, alloc, 2 * workers as u32, workers as u32)?;
    let room = Vec::with_capacity(alloc, workers)?;
    let parts = Parts::with_capacity(alloc, workers)?;
    let crew = workers_of(&claims, &hand, seats, passes, labours, room);
    let crew = run_workers(rt, alloc, &claims, &hand, gate, threads, crew);
    let parts = parts_of(crew, parts, labours);
    let round = close_round(rt, alloc, claims, hand, parts, labours)?;
    Ok(round)
}

// One for each worker, and where there are fewer numbers, one for each number, but one at least.
fn threads_for(n: u64, workers: usize) -> usize
    requires { 1 ≤ workers }
    ensures some { 1 ≤ result }
    ensures few { result ≤ workers }
    ensures none_spare { 1 ≤ n → result ≤ n }
    ensures all { workers ≤ n → result ≡ workers }
{
    (workers as u64).min(n).max(1) as usize
}
