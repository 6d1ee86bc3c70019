// Sorts random rows by `sort_run`, and random runs of them by `interleave`, and works out random set operations by `set_op`, and
// compares what comes with what the row engine gives: every direction and operation, nulls, equal rows and faults. Its seed is
// fixed.
#![tactic(auto)]

mod drawn;
mod random;
mod sets;
mod sorts;

use anyhow::Result;
use random::Random;
use sets::sets_alike;
use sorts::sorts_alike;

/// How often rows are drawn and sorted, and how often a set operation is.
const ROUNDS: u64 = 2_000;

fn main(rt: HostRuntime) -> Result<()> {
    let mut random = Random::new(0x5eed);
    let mut sorts = 0u64;
    let mut sets = 0u64;
    for _ in 0..ROUNDS {
        if sorts_alike(rt.alloc(), &mut random)? {
            sorts = sorts.saturating_add(1);
        }
        if sets_alike(rt.alloc(), &mut random)? {
            sets = sets.saturating_add(1);
        }
    }
    println!(rt; "{sorts} of {ROUNDS} sorts are as the row engine's")?;
    println!(rt; "{sets} of {ROUNDS} set operations are as the row engine's")?;
    Ok(())
}
