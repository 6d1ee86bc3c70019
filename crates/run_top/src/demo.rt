// The command `demo`.
ghost use Rattle.std.specs.Prelude.{◌≡◌, ◌≤◌, ℕ, length, IfOk, IfErr};
ghost use Rattle.run_words.specs.Words.{demo_of};
ghost use Rattle.run_words.specs.Said.{IsSaid};
ghost use Rattle.gen_data.specs.Rows.{MAX_NUMBER};
ghost use Rattle.gen_data.specs.Files as spec;
ghost use Rattle.gen_data.specs.Files.{demo_files};
ghost use Rattle.gen_data.specs.Checked.{demo_plan};
ghost use Rattle.run_accepted.specs.Done.{IsAccepted};
ghost use Rattle.run_top.specs.Demo.{IsDemoAnswer, IsDemoRan, demo_text_of};

use crate::accepted::accepted_plan;
use crate::summary::say_summary;
use gen_data::demo_folder;
use plan_leaves::zip;
use plan_typed::Holed;
use run_accepted::{Ran, rows_of_plan};
use run_words::{DemoReading, Report, Status, read_demo, say_line};
use std::alloc::Global;
use std::marker::Sync;
use std::sync::Wait;
use std::thread::Threads;
use sub_types::{NoMemory, Word};
use world::{Gate, Notes, SureFolder};

/// Runs the demo's plan over tables of its own, in memory: `demo NUMBER WORKERS`, with so many orders. It says the summary of its
/// rows to the notes, a line for each region.
pub fn demo_main<N: Notes, G: Gate, H: Threads + Wait + Sync>(
    rt: &H,
    alloc: Global,
    words: &[Word],
    notes: &mut N,
    gate: &G,
) -> Status
    // Words without a reading are faulty; else the demo is done, with a report of its run, unless there is no memory.
    ensures answer { IsDemoAnswer (demo_of words.now) result }

    // The rows that the demo's plan denotes over the demo's tables are said.
    ensures notes { IsSaid (N.text notes.old) (N.text notes.new) (N.failures notes.old) (N.failures notes.new) (demo_text_of (demo_of words.now) result) }
{
    let Some(reading) = read_demo(words) else {
        say_line(alloc, notes, &Status::Usage);
        return Status::Usage;
    };
    match run_demo(rt, gate, alloc, reading) {
        Ok(ran) => {
            say_summary(alloc, notes, &ran.rows);
            Status::Ok(report_of(ran))
        }
        Err(refusal) => {
            say_line(alloc, notes, &refusal);
            refusal
        }
    }
}

// The report of rows with their receipts.
fn report_of(ran: Ran) -> Report
    ensures rows { result.rows ≡ length ran.rows.items }
    ensures receipts { result.receipts ≡ ran.receipts }
{
    Report {
        rows: ran.rows.len() as u64,
        receipts: ran.receipts,
    }
}

// The rows of the demo and the receipts of its run. A refusal can only be that there is no memory.
fn run_demo<H: Threads + Wait + Sync, G: Gate>(
    rt: &H,
    gate: &G,
    alloc: Global,
    reading: DemoReading,
) -> Result<Ran, Status>
    requires few { reading.number ≤ MAX_NUMBER }
    requires workers { 1 ≤ reading.workers }
    requires few_workers { reading.workers ≤ 64 }
    ensures ran { IfOk result (IsDemoRan reading.number reading.workers) }
    ensures memory { IfErr result (λ refusal. refusal ≡ Status.NoMemory) }
{
    let (mut folder, bindings) = match zip(
        demo_folder(alloc, reading.number),
        demo_bindings(alloc),
    ) {
        Ok(both) => both,
        Err(NoMemory) => return Err(Status::NoMemory),
    };
    match plan_of_demo(alloc, &mut folder) {
        Ok(plan) => rows_of_demo(rt, gate, alloc, &mut folder, &bindings, reading, &plan),
        Err(refusal) => Err(refusal),
    }
}

// The checked plan of the demo's folder.
fn plan_of_demo(alloc: Global, folder: &mut SureFolder) -> Result<Holed, Status>
    ensures plan { (number : ℕ) → folder.old.files ≡ demo_files number → IfOk result (λ plan. plan ≡ demo_plan) }
    ensures accepted { IfOk result IsAccepted }
    ensures memory { (number : ℕ) → folder.old.files ≡ demo_files number → IfErr result (λ refusal. refusal ≡ Status.NoMemory) }
    ensures kept { folder.new.files ≡ folder.old.files }
{
    accepted_plan(alloc, folder, "plan")
}

// The rows of the demo's plan over its folder.
fn rows_of_demo<H: Threads + Wait + Sync, G: Gate>(
    rt: &H,
    gate: &G,
    alloc: Global,
    folder: &mut SureFolder,
    bindings: &[Word],
    reading: DemoReading,
    plan: &Holed,
) -> Result<Ran, Status>
    requires few { reading.number ≤ MAX_NUMBER }
    requires workers { 1 ≤ reading.workers }
    requires few_workers { reading.workers ≤ 64 }
    requires files { folder.old.files ≡ demo_files reading.number }
    requires bindings { bindings.now ≡ spec.demo_bindings }
    requires accepted { IsAccepted plan.now }
    requires plan { plan.now ≡ demo_plan }
    ensures ran { IfOk result (IsDemoRan reading.number reading.workers) }
    ensures memory { IfErr result (λ refusal. refusal ≡ Status.NoMemory) }
{
    rows_of_plan(rt, gate, alloc, folder, bindings, reading.workers, plan)
}

// The words that bind the names of the tables to their files.
fn demo_bindings(alloc: Global) -> Result<Vec<Word>, NoMemory>
    ensures { IfOk result (λ words. words.items ≡ spec.demo_bindings) }
{
    let mut words = Vec::new(alloc);
    words.push(Word::of(alloc, "orders=orders")?)?;
    words.push(Word::of(alloc, "lines=lines")?)?;
    Ok(words)
}
