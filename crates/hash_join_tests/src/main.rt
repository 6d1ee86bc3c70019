// Worked joins, and random joins of every kind by `hash_join`, each of these against the row engine's join of the same rows, which
// tries every pair. The left rows come in two pieces with marks of their own, and the right rows in two parts. Keys collide and are
// null, and the rest of the condition may fault; a rest of two conjuncts may fault where the first isn't true, which is no fault.
#![tactic(auto)]

mod batches;
mod calls;
mod conditions;
mod random;
mod rests;
mod rows;
mod trial;
mod worked;

use anyhow::Result;
use trial::agreeing;
use worked::differing;

/// How many joins are tried.
const JOINS: u32 = 2_000;

fn main(rt: HostRuntime) -> Result<()> {
    match agreeing(rt.alloc(), JOINS) {
        Ok(count) => println!(rt; "{count} of {JOINS} joins agree")?,
        Err(_) => println!(rt; "no memory")?,
    }
    match differing(rt.alloc()) {
        Ok(None) => println!(rt; "all worked joins are as written")?,
        Ok(Some(name)) => println!(rt; "{name}: not as written")?,
        Err(_) => println!(rt; "no memory")?,
    }
    Ok(())
}
