// The workers in threads of their own, one each. Where a thread can't be made, the caller does its work.
ghost use Rattle.std.specs.Prelude.{◌<◌, All, length};
ghost use Rattle.hand_off_tests.specs.Crew.{IsReady, IsDone};

use crate::crew::Worker;
use crate::numbers::Item;
use hand_off::HandOff;
use scan_claims::Claims;
use std::alloc::Global;
use std::sync::Wait;
use std::thread;
use std::thread::Threads;
use world::Gate;

pub fn run_crew<H: Threads + Wait + Sync, G: Gate>(
    rt: &H,
    alloc: Global,
    claims: &Claims,
    hand: &HandOff<Item>,
    gate: &G,
    crew: &mut [Worker],
)
    requires some { 0 < length crew.old }
    requires ready { All (IsReady claims.now hand.now) crew.old }
    ensures { All (IsDone claims.now hand.now) crew.new }
{
    let threads = crew.len();
    thread::for_each_mut(
        rt,
        crew,
        threads,
        &|_: usize, worker: &mut Worker|
            requires { IsReady claims.now hand.now worker.now }
            ensures { IsDone claims.entry.now hand.entry.now worker.exit.now }
        { worker.work(rt, alloc, claims, hand, gate) },
    );
}
