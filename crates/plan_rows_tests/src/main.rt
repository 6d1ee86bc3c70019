// Runs each plan of the files of `data/` by `run_plan`, and says which give other rows than they must. The README says what
// stands in such a file.
#![tactic(auto)]

mod case;
mod text;

use anyhow::{Context, Result};
use case::Case;
use std::fs;
use std::rt::Files;

/// The files of plans.
const FILES: [&str; 3] = ["edges.plans", "mixed.plans", "subqueries.plans"];

fn main(rt: HostRuntime) -> Result<()> {
    let mut passed = 0;
    for name in FILES {
        passed = run_file(&rt, name, passed)?;
    }
    println!(rt; "{passed} passed")?;
    Ok(())
}

/// The plans of a file. It adds how many give what they must, and prints the others.
fn run_file<R: Files + Print + AllocGlobal>(rt: &R, name: &str, before: u64) -> Result<u64> {
    let text = fs::read_to_string(rt, name)?;
    let mut passed = before;
    let mut case = Case::new(rt.alloc());
    for (index, line) in text.lines().enumerate() {
        if line.is_empty() {
            if holds(rt, &case)? {
                passed = passed.saturating_add(1);
            }
            case = Case::new(rt.alloc());
        } else {
            let number = index.saturating_add(1);
            case.take_line(line)
                .context(format_args!("{name}, line {number}"))?;
        }
    }
    Ok(passed)
}

/// Whether a plan gives what it must. One that doesn't is printed with what came.
fn holds<R: Print + AllocGlobal>(rt: &R, case: &Case) -> Result<bool> {
    let came = case.run(rt.alloc()).context(format_args!("{}", case.name))?;
    let holds = came.as_str() == case.expected.as_str();
    if !holds {
        println!(rt; "{} gives\n{}", case.name, came)?;
    }
    Ok(holds)
}
