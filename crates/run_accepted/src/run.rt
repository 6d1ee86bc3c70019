// The run of an accepted plan: open, read, work out, write.
ghost use Rattle.std.specs.Prelude.{◌≡◌, ◌≢◌, ◌-◌, ◌≤◌, ℕ, List, Some, None, length, map};
ghost use Rattle.std.specs.List.{All, AllZip};
ghost use Rattle.world.specs.Counts.{Rose};
ghost use Rattle.world.specs.Files.{Files};
ghost use Rattle.plan_reads.specs.Reads.{reads_of as spec_reads_of};
ghost use Rattle.plan_tables.specs.Open.{open_seen, AllTold, AllReady, count_open};
ghost use Rattle.plan_tables.specs.Read.{IsTableOf};
ghost use Rattle.plan_tables.specs.Tables.{Opened, tables_of, tested_tables};
ghost use Rattle.row_engine.specs.Tables.{tables_seen};
ghost use Rattle.batch.specs.BatchRows.{types_of};
ghost use Rattle.plan_typed.specs.Types.{columns_of};
ghost use Rattle.plan_denote.specs.Denote.{Tables};
ghost use Rattle.plan_denote.specs.Subqueries.{denote_plan};
ghost use Rattle.gather_plans.specs.Over.{gathered_stream};
ghost use Rattle.run_words.specs.ReadingSeen.{reading_seen};
ghost use Rattle.run_accepted.specs.Done as spec;
ghost use Rattle.run_accepted.specs.Done.{IsAccepted, input_of};
ghost use Rattle.crew_tables.specs.Receipts.{IsReceiptOf};
ghost use Rattle.run_accepted.specs.Fits.{FitsFiles, IsOutcome};

use crate::bare::{bare_table, is_bare};
use crate::write::write_batches;
use crew_tables::{Crew as ReadCrew, CrewTables, read_by_crew};
use gather_plans::{Crew, Gathered, gather_plan};
use plan_reads::reads_of;
use plan_tables::{OpenRead, open_reads};
use plan_typed::Holed;
use row_engine::Table;
use run_words::{PipeReceipt, Reading, Status};
use std::alloc::Global;
use std::marker::Sync;
use std::sync::Wait;
use std::thread::Threads;
use sub_types::NoMemory;
use table_open::TableError;
use world::{Folder, FolderError, Gate};

/// Runs an accepted plan over the files of a folder: those that the words bind to the names of its read relations' tables, its
/// subqueries' among them, are opened, read and worked by so many workers, and the rows that it denotes over them are written as the out
/// file. Nothing is written before all rows are known. All readers are given back.
#[tactic(auto, unfolding(crate::specs::Done::done_in))]
pub fn run_accepted<H: Threads + Wait + Sync, F: Folder, G: Gate>(
    rt: &H,
    gate: &G,
    alloc: Global,
    folder: &mut F,
    reading: Reading<'_>,
    plan: &Holed,
) -> Status
    requires workers { (1 ≤ reading.workers) × (reading.workers ≤ 64) }
    requires few_words { length reading.bindings.now ≤ 1024 }
    requires accepted { IsAccepted plan.now }
    ensures files { (files : Files) → F.files folder.old ≡ Some files
        → FitsFiles (spec.done_in files (reading_seen reading.entry) plan.now) (F.files folder.old) (F.files folder.new) result }
    ensures named { IsOutcome plan.now result }
    ensures read_fault { result ≡ Status.ReadFault → Rose (F.read_faults folder.old) (F.read_faults folder.new) }
    ensures never_falls { F.read_faults folder.old ≤ F.read_faults folder.new }
    ensures write_fault { result ≡ Status.WriteFault → Rose (F.write_faults folder.old) (F.write_faults folder.new) }
    ensures lent { F.lent folder.new ≡ F.lent folder.old }
{
    let reads = match reads_of(alloc, plan) {
        Ok(reads) => reads,
        Err(NoMemory) => return Status::NoMemory,
    };
    match open_reads(alloc, folder, reading.bindings, reads) {
        Ok(opened) => {
            let crew = Crew {
                rt,
                gate,
                workers: reading.workers,
            };
            run_opened(&crew, alloc, folder, reading, plan, opened)
        }
        Err(TableError::Refused { file, rule }) => Status::FileRefused { file, rule },
        Err(TableError::ReadFault) => Status::ReadFault,
        Err(TableError::NoMemory) => Status::NoMemory,
    }
}

/// The same once the files are open.
fn run_opened<H: Threads + Wait + Sync, F: Folder, G: Gate>(
    crew: &Crew<'_, H, G>,
    alloc: Global,
    folder: &mut F,
    reading: Reading<'_>,
    plan: &Holed,
    opened: Vec<OpenRead<F::R>>,
) -> Status
    requires workers { crew.now.workers ≡ reading.workers }
    requires accepted { IsAccepted plan.now }
    requires reads { map (λ one. one.read) opened.items ≡ spec_reads_of plan.now }
    requires ready { AllReady F.R.bytes opened.items }
    ensures files { AllTold F.R.bytes opened.items
        → FitsFiles (spec.done_over (reading_seen reading.entry) plan.now (map (open_seen F.R.bytes) opened.items)) (F.files folder.old) (F.files folder.new) result }
    ensures named { IsOutcome plan.now result }
    ensures read_fault { result ≡ Status.ReadFault → Rose (F.read_faults folder.old) (F.read_faults folder.new) }
    ensures never_falls { F.read_faults folder.old ≤ F.read_faults folder.new }
    ensures write_fault { result ≡ Status.WriteFault → Rose (F.write_faults folder.old) (F.write_faults folder.new) }
    ensures lent { F.lent folder.new ≡ F.lent folder.old - count_open opened.items }
{
    if is_bare(plan) {
        return run_bare(crew, alloc, folder, reading, plan, opened);
    }
    match gather_plan(crew, alloc, folder, plan, opened) {
        Ok(all) => run_gathered(alloc, folder, reading, plan, all),
        Err(FolderError::Failed) => Status::ReadFault,
        Err(FolderError::NoMemory) => Status::NoMemory,
    }
}

/// The same once the rows are worked out.
fn run_gathered<F: Folder>(
    alloc: Global,
    folder: &mut F,
    reading: Reading<'_>,
    plan: &Holed,
    all: Gathered,
) -> Status
    requires accepted { IsAccepted plan.now }
    requires types { All (λ batch. types_of batch ≡ columns_of plan.now.typed.rel) all.batches.items }
    requires denoted { (tables : Tables) × (gathered_stream all ≡ denote_plan tables plan.now) }
    ensures files { (opened : List Opened) → gathered_stream all ≡ denote_plan (tables_of opened) plan.now
        → (all.end ≡ None → AllZip (IsReceiptOf reading.entry.workers) (map input_of opened) all.receipts.items)
        → FitsFiles (spec.done_over (reading_seen reading.entry) plan.now opened) (F.files folder.old) (F.files folder.new) result }
    ensures named { IsOutcome plan.now result }
    ensures reads_nothing { result ≢ Status.ReadFault }
    ensures read_faults { F.read_faults folder.new ≡ F.read_faults folder.old }
    ensures write_fault { result ≡ Status.WriteFault → Rose (F.write_faults folder.old) (F.write_faults folder.new) }
    ensures lent { F.lent folder.new ≡ F.lent folder.old }
{
    let Gathered {
        batches,
        end,
        receipts,
    } = all;
    if let Some(fault) = end {
        return Status::DataFault { fault };
    }
    write_batches(alloc, folder, reading, plan, &batches, receipts)
}

/// The same for a bare read: its table is read by the workers, and its batches are written as they are.
fn run_bare<H: Threads + Wait + Sync, F: Folder, G: Gate>(
    crew: &Crew<'_, H, G>,
    alloc: Global,
    folder: &mut F,
    reading: Reading<'_>,
    plan: &Holed,
    opened: Vec<OpenRead<F::R>>,
) -> Status
    requires workers { crew.now.workers ≡ reading.workers }
    requires accepted { IsAccepted plan.now }
    requires reads { map (λ one. one.read) opened.items ≡ spec_reads_of plan.now }
    requires ready { AllReady F.R.bytes opened.items }
    ensures files { AllTold F.R.bytes opened.items
        → FitsFiles (spec.done_over (reading_seen reading.entry) plan.now (map (open_seen F.R.bytes) opened.items)) (F.files folder.old) (F.files folder.new) result }
    ensures named { IsOutcome plan.now result }
    ensures read_fault { result ≡ Status.ReadFault → Rose (F.read_faults folder.old) (F.read_faults folder.new) }
    ensures never_falls { F.read_faults folder.old ≤ F.read_faults folder.new }
    ensures write_fault { result ≡ Status.WriteFault → Rose (F.write_faults folder.old) (F.write_faults folder.new) }
    ensures lent { F.lent folder.new ≡ F.lent folder.old - count_open opened.items }
{
    let readers = ReadCrew {
        rt: crew.rt,
        gate: crew.gate,
        workers: crew.workers,
    };
    match read_by_crew(&readers, alloc, folder, opened) {
        Ok(all) => {
            let CrewTables { tables, receipts } = all;
            run_tables(alloc, folder, reading, plan, &tables, receipts)
        }
        Err(FolderError::Failed) => Status::ReadFault,
        Err(FolderError::NoMemory) => Status::NoMemory,
    }
}

/// The same once its table is read.
fn run_tables<F: Folder>(
    alloc: Global,
    folder: &mut F,
    reading: Reading<'_>,
    plan: &Holed,
    tables: &[Table],
    receipts: Vec<PipeReceipt>,
) -> Status
    requires accepted { IsAccepted plan.now }
    requires tables { AllZip IsTableOf (spec_reads_of plan.now) tables.now }
    ensures files { (opened : List Opened) → map (λ one. one.read) opened ≡ spec_reads_of plan.now
        → ((relation : ℕ) → tables_seen tables.now relation ≡ tested_tables opened relation)
        → AllZip (IsReceiptOf reading.entry.workers) (map input_of opened) receipts.items
        → FitsFiles (spec.done_over (reading_seen reading.entry) plan.now opened) (F.files folder.old) (F.files folder.new) result }
    ensures named { IsOutcome plan.now result }
    ensures reads_nothing { result ≢ Status.ReadFault }
    ensures read_faults { F.read_faults folder.new ≡ F.read_faults folder.old }
    ensures write_fault { result ≡ Status.WriteFault → Rose (F.write_faults folder.old) (F.write_faults folder.new) }
    ensures lent { F.lent folder.new ≡ F.lent folder.old }
{
    // A bare read has its table.
    let Some(table) = bare_table(plan, tables) else {
        return Status::NoMemory;
    };
    if let Some(end) = table.end {
        return Status::DataFault { fault: end };
    }
    write_batches(
        alloc,
        folder,
        reading,
        plan,
        table.batches.as_slice(),
        receipts,
    )
}
