// The rows of an accepted plan, of which nothing is written.
ghost use Rattle.std.specs.Prelude.{◌≡◌, ◌≢◌, ◌-◌, ◌≤◌, ℕ, List, Some, None, Ok, Err, IfOk, length, map};
ghost use Rattle.std.specs.List.{AllZip, flat_map};
ghost use Rattle.batch.specs.BatchRows.{rows_of};
ghost use Rattle.world.specs.Counts.{Rose};
ghost use Rattle.world.specs.Files.{Files};
ghost use Rattle.plan_reads.specs.Reads.{reads_of as spec_reads_of};
ghost use Rattle.plan_tables.specs.Open.{open_seen, AllTold, AllReady, count_open};
ghost use Rattle.plan_tables.specs.Tables as spec;
ghost use Rattle.plan_tables.specs.Tables.{Opened, tables_of};
ghost use Rattle.plan_denote.specs.Subqueries.{denote_plan};
ghost use Rattle.gather_plans.specs.Over.{gathered_stream};
ghost use Rattle.run_accepted.specs.Done.{IsAccepted, input_of};
ghost use Rattle.crew_tables.specs.Receipts.{IsReceiptOf};
ghost use Rattle.run_accepted.specs.Fits.{FitsRows};

use batch::Batch;
use gather_plans::{Crew, Gathered, gather_plan};
use plan_leaves::Items;
use plan_reads::reads_of;
use plan_tables::{OpenRead, open_reads};
use plan_typed::Holed;
use row_engine::{Table, table_rows};
use run_words::{PipeReceipt, Status};
use std::alloc::Global;
use std::marker::Sync;
use std::sync::Wait;
use std::thread::Threads;
use sub_types::{NoMemory, Value, Word};
use table_open::TableError;
use world::{Folder, FolderError, Gate};

/// The rows of a plan, and the receipts of its read relations.
#[derive(Drop)]
pub struct Ran {
    pub rows: Vec<Items<Value>>,
    pub receipts: Vec<PipeReceipt>,
}

/// Runs an accepted plan over the files of a folder, those that the words bind to the names of its read relations' tables, and gives its
/// rows with a receipt of so many workers for each read relation, or the first refusal or fault. Nothing is written. All readers are
/// given back.
pub fn rows_of_plan<H: Threads + Wait + Sync, F: Folder, G: Gate>(
    rt: &H,
    gate: &G,
    alloc: Global,
    folder: &mut F,
    bindings: &[Word],
    workers: u32,
    plan: &Holed,
) -> Result<Ran, Status>
    requires workers { (1 ≤ workers) × (workers ≤ 64) }
    requires few_words { length bindings.now ≤ 1024 }
    requires accepted { IsAccepted plan.now }
    ensures rows { (files : Files) → F.files folder.old ≡ Some files
        → FitsRows (spec.open_reads files bindings.now (spec_reads_of plan.now)) plan.now workers result }
    ensures kept { F.files folder.new ≡ F.files folder.old }
    ensures read_fault { result ≡ Err Status.ReadFault → Rose (F.read_faults folder.old) (F.read_faults folder.new) }
    ensures lent { F.lent folder.new ≡ F.lent folder.old }
{
    let reads = match reads_of(alloc, plan) {
        Ok(reads) => reads,
        Err(NoMemory) => return Err(Status::NoMemory),
    };
    match open_reads(alloc, folder, bindings, reads) {
        Ok(opened) => {
            let crew = Crew { rt, gate, workers };
            rows_of_opened(&crew, alloc, folder, plan, opened)
        }
        Err(TableError::Refused { file, rule }) => Err(Status::FileRefused { file, rule }),
        Err(TableError::ReadFault) => Err(Status::ReadFault),
        Err(TableError::NoMemory) => Err(Status::NoMemory),
    }
}

// The same once the files are open.
fn rows_of_opened<H: Threads + Wait + Sync, F: Folder, G: Gate>(
    crew: &Crew<'_, H, G>,
    alloc: Global,
    folder: &mut F,
    plan: &Holed,
    opened: Vec<OpenRead<F::R>>,
) -> Result<Ran, Status>
    requires accepted { IsAccepted plan.now }
    requires reads { map (λ one. one.read) opened.items ≡ spec_reads_of plan.now }
    requires ready { AllReady F.R.bytes opened.items }
    ensures rows { AllTold F.R.bytes opened.items → FitsRows (Ok (map (open_seen F.R.bytes) opened.items)) plan.now crew.now.workers result }
    ensures kept { F.files folder.new ≡ F.files folder.old }
    ensures read_fault { result ≡ Err Status.ReadFault → Rose (F.read_faults folder.old) (F.read_faults folder.new) }
    ensures lent { F.lent folder.new ≡ F.lent folder.old - count_open opened.items }
{
    match gather_plan(crew, alloc, folder, plan, opened) {
        Ok(all) => rows_of_gathered(alloc, plan, all),
        Err(FolderError::Failed) => Err(Status::ReadFault),
        Err(FolderError::NoMemory) => Err(Status::NoMemory),
    }
}

// The same once the rows are worked out.
fn rows_of_gathered(alloc: Global, plan: &Holed, all: Gathered) -> Result<Ran, Status>
    ensures rows { (workers : ℕ) (opened : List Opened) → gathered_stream all ≡ denote_plan (tables_of opened) plan.now
        → (all.end ≡ None → AllZip (IsReceiptOf workers) (map input_of opened) all.receipts.items)
        → FitsRows (Ok opened) plan.now workers result }
    ensures reads_nothing { result ≢ Err Status.ReadFault }
{
    let Gathered {
        batches,
        end,
        receipts,
    } = all;
    if let Some(fault) = end {
        return Err(Status::DataFault { fault });
    }
    match rows_of_batches(alloc, batches) {
        Ok(rows) => Ok(Ran { rows, receipts }),
        Err(NoMemory) => Err(Status::NoMemory),
    }
}

/// The rows of batches one by one.
fn rows_of_batches(alloc: Global, batches: Vec<Batch>) -> Result<Vec<Items<Value>>, NoMemory>
    ensures { IfOk result (λ rows. rows.items ≡ flat_map rows_of batches.items) }
{
    let tables = [Table {
        relation: 0,
        batches: Items::from_vec(batches),
        end: None,
    }];
    let stream = table_rows(alloc, &tables, 0)?;
    Ok(stream.rows.into_vec())
}
