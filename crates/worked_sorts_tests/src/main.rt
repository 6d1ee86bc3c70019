// The worked rows of `data/`: sorts and set operations by `sort_merge` and `set_rels`, with what they give. The README says what
// stands there.
#![tactic(auto)]

mod columns;
mod sets;
mod sorts;

use anyhow::Result;
use sets::set_holds;
use sorts::sort_holds;
use std::alloc::Global;
use std::fs;
use std::rt::Files;

fn main(rt: HostRuntime) -> Result<()> {
    let rows = worked_rows(&rt)?;
    println!(rt; "{rows} worked rows hold")?;
    Ok(())
}

// How many worked rows hold. Those that don't are printed.
fn worked_rows<R: Files + Print + AllocGlobal>(rt: &R) -> Result<u64> {
    let text = fs::read_to_string(rt, "worked.rows")?;
    let mut count = 0u64;
    for line in text.lines() {
        if !line.is_empty() && !line.starts_with('#') {
            if holds(rt.alloc(), line)? {
                count = count.saturating_add(1);
            } else {
                println!(rt; "{line}")?;
            }
        }
    }
    Ok(count)
}

// Whether a row holds, which is of a sort or of a set operation.
fn holds(alloc: Global, line: &str) -> Result<bool> {
    if line.starts_with("ASC") || line.starts_with("DESC") {
        sort_holds(alloc, line)
    } else {
        set_holds(alloc, line)
    }
}
