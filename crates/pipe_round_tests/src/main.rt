// Random pipelines by many workers, each against the same pipeline by one call over the same pieces (`pipe_steps`) and one worker at its
// breaker: its steps read two columns of numbers, change their places and join them with tables of every kind, and at its end the rows
// stay, are fetched, sorted or grouped. Pieces, tables and the rests of joins end in faults.
#![tactic(auto)]

mod batches;
mod breakers;
mod joins;
mod random;
mod rests;
mod rows;
mod steps;
mod tables;
mod trial;

use anyhow::Result;
use trial::agreeing;

/// How many pipelines are tried.
const PIPELINES: u32 = 800;

fn main(rt: HostRuntime) -> Result<()> {
    match agreeing(&rt, rt.alloc(), PIPELINES) {
        Ok(count) => println!(rt; "{count} of {PIPELINES} pipelines agree")?,
        Err(_) => println!(rt; "no memory")?,
    }
    Ok(())
}
