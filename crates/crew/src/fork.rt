// The workers in threads, of which each has some of them. Where a thread can't be made, the caller does its work.
ghost use Rattle.std.specs.Prelude.{◌≡◌, ◌<◌, All, length, map, vec_len};
ghost use Rattle.crew.specs.Labours.{labour_view};
ghost use Rattle.crew.specs.Workers.{IsReady, IsDone, IsEnded, AllDone};

use crate::worker::Worker;
use hand_off::{HandOff, Labour, Numbered};
use scan_claims::Claims;
use std::alloc::Global;
use std::sync::Wait;
use std::thread;
use std::thread::Threads;
use world::Gate;

fn fork_workers<H: Threads + Wait + Sync, T: Numbered, L: Labour<T> + Send, G: Gate>(
    rt: &H,
    alloc: Global,
    claims: &Claims,
    hand: &HandOff<T>,
    gate: &G,
    threads: usize,
    workers: &mut [Worker<T, L>],
)
    requires threads { 0 < threads }
    requires ready { All (IsReady (λ l. labour_view (L.about l) (L.loaded l) (L.results l) (L.failures l)) claims.now hand.now) workers.old }
    ensures { AllDone (IsDone T.number_of L.Out.number_of L.right L.failed L.fits
        (λ l. labour_view (L.about l) (L.loaded l) (L.results l) (L.failures l)) claims.now hand.now) workers.old workers.new }
{
    thread::for_each_mut(
        rt,
        workers,
        threads,
        &|_: usize, worker: &mut Worker<T, L>|
            requires { IsReady (λ l. labour_view (L.about l) (L.loaded l) (L.results l) (L.failures l)) claims.now hand.now worker.now }
            ensures { IsDone T.number_of L.Out.number_of L.right L.failed L.fits
                (λ l. labour_view (L.about l) (L.loaded l) (L.results l) (L.failures l))
                claims.entry.now hand.entry.now worker.entry.now worker.exit.now }
        { worker.work(rt, alloc, claims, hand, gate) },
    );
}

/// Runs the workers, in at most so many threads, until each has met the end or found no memory. A thread that can't be made is
/// no error: its workers run on this thread.
pub fn run_workers<H: Threads + Wait + Sync, T: Numbered, L: Labour<T> + Send, G: Gate>(
    rt: &H,
    alloc: Global,
    claims: &Claims,
    hand: &HandOff<T>,
    gate: &G,
    threads: usize,
    mut workers: Vec<Worker<T, L>>,
) -> Vec<Worker<T, L>>
    requires threads { 0 < threads }
    requires ready { All (IsReady (λ l. labour_view (L.about l) (L.loaded l) (L.results l) (L.failures l)) claims.now hand.now) workers.items }
    ensures about { map (λ w. L.about w.labour) result.items ≡ map (λ w. L.about w.labour) workers.items }
    ensures ended { All (IsEnded T.number_of L.Out.number_of L.right L.failed L.fits
        (λ l. labour_view (L.about l) (L.loaded l) (L.results l) (L.failures l)) claims.now hand.now) result.items }
{
    fork_workers(
        rt,
        alloc,
        claims,
        hand,
        gate,
        threads,
        workers.as_mut_slice(),
    );
    workers
}
