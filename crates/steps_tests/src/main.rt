// Random filters, projections, kept columns and fetches by `row_ops` over pieces, each beside the row engine's over all their rows,
// and the worked rows of `data/`. The README says what stands there. The seed is fixed.
#![tactic(auto)]

mod batches;
mod calls;
mod exprs;
mod named;
mod random;
mod rows;
mod steps;
mod text;
mod trial;
mod worked;

use anyhow::Result;
use random::Random;
use std::alloc::Global;
use std::fs;
use std::rt::Files;
use sub_types::NoMemory;
use trial::{fetches_agree, filters_agree, kept_columns_agree, projections_agree};
use worked::holds;

/// How many of each step are tried.
const ROUNDS: u64 = 2_000;

/// How many of each step agree.
#[derive(Clone, Copy)]
struct Counts {
    filters: u64,
    projections: u64,
    columns: u64,
    fetches: u64,
}

fn main(rt: HostRuntime) -> Result<()> {
    let Counts {
        filters,
        projections,
        columns,
        fetches,
    } = agreeing(rt.alloc())?;
    println!(rt; "{filters} of {ROUNDS} filters are as the row engine's")?;
    println!(rt; "{projections} of {ROUNDS} projections are as the row engine's")?;
    println!(rt; "{columns} of {ROUNDS} lists of columns are as the row engine's")?;
    println!(rt; "{fetches} of {ROUNDS} fetches are as the row engine's")?;
    let rows = worked_rows(&rt)?;
    println!(rt; "{rows} worked rows hold")?;
    Ok(())
}

fn agreeing(alloc: Global) -> Result<Counts, NoMemory> {
    let mut random = Random::new(5);
    let mut counts = Counts {
        filters: 0,
        projections: 0,
        columns: 0,
        fetches: 0,
    };
    for _ in 0..ROUNDS {
        let filters = filters_agree(alloc, &mut random)?;
        let projections = projections_agree(alloc, &mut random)?;
        let columns = kept_columns_agree(alloc, &mut random)?;
        let fetches = fetches_agree(alloc, &mut random)?;
        counts = Counts {
            filters: counted(counts.filters, filters),
            projections: counted(counts.projections, projections),
            columns: counted(counts.columns, columns),
            fetches: counted(counts.fetches, fetches),
        };
    }
    Ok(counts)
}

fn counted(count: u64, agrees: bool) -> u64 {
    if agrees {
        count.saturating_add(1)
    } else {
        count
    }
}

// How many worked rows hold. Those that don't are printed.
fn worked_rows<R: Files + Print + AllocGlobal>(rt: &R) -> Result<u64> {
    let text = fs::read_to_string(rt, "steps.rows")?;
    let mut count = 0u64;
    for line in text.lines() {
        if !line.is_empty() && !line.starts_with('#') {
            if holds(rt.alloc(), line)? {
                count = count.saturating_add(1);
            } else {
                println!(rt; "{line}")?;
            }
        }
    }
    Ok(count)
}
