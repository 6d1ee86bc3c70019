// Runs the cases of each `.cases` file of the current folder, in the order of their names, and says which differ from
// what they expect. The README says what stands in such a file.
#![tactic(auto)]

mod case;
mod each;
mod folder;
mod report;
mod run;

use anyhow::Result;
use case::{Case, read_cases};
use report::Tally;
use std::marker::Sync;
use std::process::ExitCode;
use std::rt::Files;
use std::sync::Wait;
use std::thread::Threads;
use std::{fs, io};

fn main(rt: HostRuntime) -> Result<ExitCode> {
    let mut all = Tally::NONE;
    let mut is_read = true;
    for name in names_of_files(&rt)?.iter() {
        match run_file(&rt, name.as_str())? {
            Some(tally) => all.add(tally),
            None => is_read = false,
        }
    }
    report::print_all(&rt, all)?;
    if is_read && all.failed == 0 {
        Ok(ExitCode::SUCCESS)
    } else {
        Ok(ExitCode::FAILURE)
    }
}

// What a name of a file of cases ends in.
const ENDING: &str = ".cases";

// The names of the files of cases, in order and without their ending.
fn names_of_files<R: Files + AllocGlobal + Clone + Drop>(rt: &R) -> Result<Vec<String>> {
    let mut names = Vec::new(rt.alloc());
    for entry in fs::read_dir(rt, ".")? {
        let entry = entry?;
        if let Some(name) = entry.file_name().strip_suffix(ENDING) {
            names.push(String::from_str(rt.alloc(), name)?)?;
        }
    }
    names.sort()?;
    Ok(names)
}

// Runs the cases of a file, or says why they can't be read.
fn run_file<R: Files + Print + AllocGlobal + Threads + Wait + Sync>(
    rt: &R,
    name: &str,
) -> Result<Option<Tally>> {
    let text = match read_file(rt, name) {
        Ok(text) => text,
        Err(error) => {
            println!(rt; "{name}: {error}")?;
            return Ok(None);
        }
    };
    match read_cases(rt.alloc(), text.as_str()) {
        Ok(cases) => Ok(Some(run_cases(rt, name, &cases)?)),
        Err(faulty) => {
            println!(rt; "{name}: {faulty}")?;
            Ok(None)
        }
    }
}

fn read_file<R: Files + AllocGlobal>(rt: &R, name: &str) -> io::Result<String> {
    let path = format!(in rt.alloc(); "{name}{ENDING}")?;
    fs::read_to_string(rt, path)
}

// Runs cases, and says which differ and how many don't.
fn run_cases<R: Print + AllocGlobal + Threads + Wait + Sync>(
    rt: &R,
    name: &str,
    cases: &[Case],
) -> Result<Tally> {
    let mut tally = Tally::NONE;
    for case in cases.iter() {
        let differing = run::first_differing(rt, rt.alloc(), case)?;
        if let Some(differing) = &differing {
            report::print_differing(rt, case.name.as_str(), differing)?;
        }
        tally.count(differing.is_none());
    }
    report::print_file(rt, name, tally)?;
    Ok(tally)
}
