// The tables of all read relations.
ghost use Rattle.std.specs.Prelude.{◌≡◌, ◌-◌, ◌≤◌, ◌⊎◌, [], ◌∷◌, ℕ, IfOk, IsErrOf, OnErr, OnOk, map};
ghost use Rattle.std.specs.List.{All, AllZip};
ghost use Rattle.world.specs.Counts.{HasCause, Rose};
ghost use Rattle.row_engine.specs.Tables.{tables_seen};
ghost use Rattle.plan_tables.specs.Open.{open_seen, AreReady, AllTold, AllReady, count_files, count_open};
ghost use Rattle.plan_tables.specs.Read.{IsReadOf, IsTableOf};
ghost use Rattle.plan_tables.specs.Tables as spec;
ghost use Rattle.crew_tables.specs.Added.{Adds};
ghost use Rattle.crew_tables.specs.Receipts.{IsReceiptOf, IsReceiptFor};

use crate::table::{Made, read_table};
use crate::workers::Crew;
use plan_reads::PlanRead;
use plan_tables::{OpenRead, close_tables};
use row_engine::Table;
use run_words::PipeReceipt;
use std::alloc::Global;
use std::marker::Sync;
use std::sync::Wait;
use std::thread::Threads;
use table_open::OpenFile;
use world::{Folder, FolderError, Gate};

/// The tables of read relations, and their receipts, in the same order.
#[derive(Drop)]
pub struct CrewTables {
    pub tables: Vec<Table>,
    pub receipts: Vec<PipeReceipt>,
}

/// The table of each read relation, as `plan_tables::read_tables` gives it, read by the workers whatever their turns are, with a receipt
/// for each: its batches were claimed once, and each was finished by one worker or by the caller. A read that fails is an error where no
/// fault stands before it in its table. All readers are given back.
pub fn read_by_crew<H: Threads + Wait + Sync, F: Folder, G: Gate>(
    crew: &Crew<'_, H, G>,
    alloc: Global,
    folder: &mut F,
    opened: Vec<OpenRead<F::R>>,
) -> Result<CrewTables, FolderError>
    requires ready { AllReady F.R.bytes opened.items }

    // What is denoted is read where the readers tell their bytes.
    ensures tables { AllTold F.R.bytes opened.items → IfOk result (λ all.
        (relation : ℕ) → tables_seen all.tables.items relation ≡ spec.tested_tables (map (open_seen F.R.bytes) opened.items) relation) }

    // What is so of each table and receipt, whatever they tell.
    ensures typed { IfOk result (λ all. AllZip IsTableOf (map (λ one. one.read) opened.items) all.tables.items) }
    ensures receipts { IfOk result (λ all. AllZip (IsReceiptFor F.R.bytes crew.now.workers) opened.items all.receipts.items) }

    ensures cause { HasCause FolderError.Failed (F.read_faults folder.old) (F.read_faults folder.new) result }
    ensures files { F.files folder.new ≡ F.files folder.old }
    ensures write_faults { F.write_faults folder.new ≡ F.write_faults folder.old }
    ensures lent { F.lent folder.new ≡ F.lent folder.old - count_open opened.items }
{
    let mut all = CrewTables {
        tables: Vec::new(alloc),
        receipts: Vec::new(alloc),
    };
    read_each(crew, alloc, folder, opened, &mut all)?;
    Ok(all)
}

/// Reads the tables in order, up to the first that can't be read, and gives all readers back.
fn read_each<H: Threads + Wait + Sync, F: Folder, G: Gate>(
    crew: &Crew<'_, H, G>,
    alloc: Global,
    folder: &mut F,
    opened: Vec<OpenRead<F::R>>,
    all: &mut CrewTables,
) -> Result<(), FolderError>
    requires ready { AllReady F.R.bytes opened.items }
    ensures tables { OnOk result (Adds (IsReadOf F.R.bytes) opened.items all.old.tables.items all.new.tables.items) }
    ensures receipts { OnOk result (Adds (IsReceiptFor F.R.bytes crew.now.workers) opened.items all.old.receipts.items all.new.receipts.items) }
    ensures cause { HasCause FolderError.Failed (F.read_faults folder.old) (F.read_faults folder.new) result }
    ensures files { F.files folder.new ≡ F.files folder.old }
    ensures write_faults { F.write_faults folder.new ≡ F.write_faults folder.old }
    ensures lent { F.lent folder.new ≡ F.lent folder.old - count_open opened.items }
{
    let mut so_far = Ok(());
    for one in opened {
        so_far = read_next(crew, alloc, folder, one, all, so_far);
    }
    so_far
}

/// Reads one table more, unless one before it couldn't be read, and gives its readers back.
fn read_next<H: Threads + Wait + Sync, F: Folder, G: Gate>(
    crew: &Crew<'_, H, G>,
    alloc: Global,
    folder: &mut F,
    one: OpenRead<F::R>,
    all: &mut CrewTables,
    so_far: Result<(), FolderError>,
) -> Result<(), FolderError>
    requires ready { AreReady F.R.bytes one.read.types one.tables.items }
    ensures tables { OnOk result (Adds (IsReadOf F.R.bytes) (one ∷ []) all.old.tables.items all.new.tables.items) }
    ensures receipts { OnOk result (Adds (IsReceiptFor F.R.bytes crew.now.workers) (one ∷ []) all.old.receipts.items all.new.receipts.items) }
    ensures stays { OnErr so_far (result ≡ so_far) }
    ensures never_falls { F.read_faults folder.old ≤ F.read_faults folder.new }
    ensures failed { IsErrOf result FolderError.Failed → IsErrOf so_far FolderError.Failed ⊎ Rose (F.read_faults folder.old) (F.read_faults folder.new) }
    ensures files { F.files folder.new ≡ F.files folder.old }
    ensures write_faults { F.write_faults folder.new ≡ F.write_faults folder.old }
    ensures lent { F.lent folder.new ≡ F.lent folder.old - count_files one.tables.items }
{
    let OpenRead {
        read,
        tables: opened,
    } = one;
    match so_far {
        Ok(()) => read_more(crew, alloc, folder, &read, opened, all),
        Err(error) => {
            // The first error is told, also where no memory is found for the reads.
            let _ = close_tables(alloc, folder, opened);
            Err(error)
        }
    }
}

/// Reads one table more, and gives its readers back.
fn read_more<H: Threads + Wait + Sync, F: Folder, G: Gate>(
    crew: &Crew<'_, H, G>,
    alloc: Global,
    folder: &mut F,
    read: &PlanRead,
    opened: Vec<Vec<OpenFile<F::R>>>,
    all: &mut CrewTables,
) -> Result<(), FolderError>
    requires ready { AreReady F.R.bytes read.now.types opened.items }
    ensures tables { OnOk result (Adds (IsReadOf F.R.bytes) (record { read = read.now; tables = opened } ∷ []) all.old.tables.items all.new.tables.items) }
    ensures receipts { OnOk result (Adds (IsReceiptFor F.R.bytes crew.now.workers) (record { read = read.now; tables = opened } ∷ []) all.old.receipts.items all.new.receipts.items) }
    ensures cause { HasCause FolderError.Failed (F.read_faults folder.old) (F.read_faults folder.new) result }
    ensures files { F.files folder.new ≡ F.files folder.old }
    ensures write_faults { F.write_faults folder.new ≡ F.write_faults folder.old }
    ensures lent { F.lent folder.new ≡ F.lent folder.old - count_files opened.items }
{
    let made = read_table(crew, alloc, folder, read, opened)?;
    let Made { table, receipt } = made;
    all.tables.push(table)?;
    all.receipts.push(receipt)?;
    Ok(())
}
