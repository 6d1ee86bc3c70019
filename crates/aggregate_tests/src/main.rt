// Random aggregates by `aggregate` and `group_sets`, each against the row engine's aggregate of the same rows, and worked ones. The
// rows come in four parts, of which the first so many are folded into one partial state and the others into another, and the two are
// merged in order. Keys are null, filters are false and null, and arguments fault.
#![tactic(auto)]

mod calls;
mod measures;
mod plans;
mod random;
mod rows;
mod trial;
mod worked;

use anyhow::Result;
use trial::{agreeing, agreeing_sets};
use worked::{differing, differing_sets};

/// How many aggregates of each sort are tried.
const AGGREGATES: u32 = 2_000;

fn main(rt: HostRuntime) -> Result<()> {
    match agreeing(rt.alloc(), AGGREGATES) {
        Ok(count) => println!(rt; "{count} of {AGGREGATES} aggregates agree")?,
        Err(_) => println!(rt; "no memory")?,
    }
    match agreeing_sets(rt.alloc(), AGGREGATES) {
        Ok(count) => println!(rt; "{count} of {AGGREGATES} grouping sets agree")?,
        Err(_) => println!(rt; "no memory")?,
    }
    match differing(rt.alloc()) {
        Ok(None) => println!(rt; "all worked aggregates are as written")?,
        Ok(Some(name)) => println!(rt; "{name}: not as written")?,
        Err(_) => println!(rt; "no memory")?,
    }
    match differing_sets(rt.alloc()) {
        Ok(None) => println!(rt; "all worked grouping sets are as written")?,
        Ok(Some(name)) => println!(rt; "{name}: not as written")?,
        Err(_) => println!(rt; "no memory")?,
    }
    Ok(())
}
