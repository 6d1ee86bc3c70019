// Works out what each expression of the rows of `data/` is worth, by `eval_row`, and says which rows differ. The README says
// what stands in such a file.
#![tactic(auto)]

mod batches;
mod names;
mod reader;
mod row;

use anyhow::{Context, Result};
use batches::are_of_batch;
use row::first_differing;
use std::fs;
use std::rt::Files;

/// The files of rows.
const FILES: [&str; 8] = [
    "boolean.rows",
    "comparison.rows",
    "arithmetic.rows",
    "decimals.rows",
    "texts.rows",
    "patterns.rows",
    "casts.rows",
    "choices.rows",
];

fn main(rt: HostRuntime) -> Result<()> {
    let mut passed = 0;
    for name in FILES {
        passed = run_file(&rt, name, passed)?;
    }
    println!(rt; "{passed} passed")?;
    if !are_of_batch(rt.alloc())? {
        println!(rt; "the rows of a batch differ")?;
    }
    Ok(())
}

/// The rows of a file: each line but empty ones and those that begin with `#`. It adds how many hold, and prints the others.
fn run_file<R: Files + Print + AllocGlobal>(rt: &R, name: &str, before: u64) -> Result<u64> {
    let text = fs::read_to_string(rt, name)?;
    let mut passed = before;
    for (index, line) in text.lines().enumerate() {
        if !line.is_empty() && !line.starts_with('#') && holds(rt, name, index, line)? {
            passed = passed.saturating_add(1);
        }
    }
    Ok(passed)
}

/// Whether a row holds. One that doesn't is printed with what came.
fn holds<R: Print + AllocGlobal>(rt: &R, name: &str, index: usize, line: &str) -> Result<bool> {
    let number = index.saturating_add(1);
    let differing = first_differing(rt.alloc(), line).context(format_args!(
        "{name}, line {number}"
    ))?;
    if let Some(came) = &differing {
        println!(rt; "{name}, line {number}: {came:?}")?;
    }
    Ok(differing.is_none())
}
