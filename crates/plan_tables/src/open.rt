// The files of read relations, opened.
ghost use Rattle.std.specs.Prelude.{◌≡◌, ◌+◌, ◌<◌, ◌≤◌, [], ℕ, Some, IfOk, IfErr, OnOk, OnErr, length, map};
ghost use Rattle.std.specs.List.{All};
ghost use Rattle.sub_types.specs.ResultSteps.{collect};
ghost use Rattle.world.specs.Counts.{HasCause};
ghost use Rattle.world.specs.Files.{Files};
ghost use Rattle.plan_reads.specs.Reads.{HasFewNames};
ghost use Rattle.table_open.specs.Answers.{FitsTable, IsTableError};
ghost use Rattle.plan_tables.specs.Tables as spec;
ghost use Rattle.plan_tables.specs.Open.{table_seen, open_seen, AreTold, AreReady, AllTold, AllReady, count_files, count_open, IsShaped};
ghost use Rattle.plan_tables.specs.Refused.{IsRefusal};

use crate::close::{close_reads, close_tables};
use plan_reads::{Origin, PlanRead};
use std::alloc::Global;
use sub_types::{ByteList, Word};
use table_open::{OpenFile, TableError, open_table};
use world::Folder;

/// A read relation, and the open files of its tables, table by table.
#[derive(Drop)]
pub struct OpenRead<R> {
    pub read: PlanRead,
    pub tables: Vec<Vec<OpenFile<R>>>,
}

/// Opens the files of the tables of all read relations, in order, up to the first that is refused. A read relation of the
/// plan's own rows has none. After an error all readers are given back.
#[tactic(auto, unfolding(crate::specs::Tables::open_reads))]
pub fn open_reads<F: Folder>(
    alloc: Global,
    folder: &mut F,
    words: &[Word],
    reads: Vec<PlanRead>,
) -> Result<Vec<OpenRead<F::R>>, TableError>
    requires shaped { All IsShaped reads.items }
    requires few { All HasFewNames reads.items }
    requires few_words { length words.now ≤ 1024 }

    // What is denoted is opened, or refused, where the folder tells its files.
    ensures told { (files : Files) → F.files folder.old ≡ Some files
        → FitsTable (λ opened. map (open_seen F.R.bytes) opened.items) result (spec.open_reads files words.now reads.items) }
    ensures tells { (files : Files) → F.files folder.old ≡ Some files → IfOk result (λ opened. AllTold F.R.bytes opened.items) }

    // What is so of the files and of a refusal, whatever the folder tells.
    ensures reads { IfOk result (λ opened. map (λ one. one.read) opened.items ≡ reads.items) }
    ensures ready { IfOk result (λ opened. AllReady F.R.bytes opened.items) }
    ensures refused { IfErr result (IsRefusal reads.items (length words.now)) }

    ensures cause { HasCause TableError.ReadFault (F.read_faults folder.old) (F.read_faults folder.new) result }
    ensures files { F.files folder.new ≡ F.files folder.old }
    ensures write_faults { F.write_faults folder.new ≡ F.write_faults folder.old }
    ensures lent { IfOk result (λ opened. F.lent folder.new ≡ F.lent folder.old + count_open opened.items) }
    ensures closed { OnErr result (F.lent folder.new ≡ F.lent folder.old) }
{
    let mut opened = Vec::new(alloc);
    if let Err(error) = open_each(alloc, folder, words, reads, &mut opened) {
        close_reads(alloc, folder, opened)?;
        return Err(error);
    }
    Ok(opened)
}

/// Opens the tables of each read relation, up to the first that isn't opened.
fn open_each<F: Folder>(
    alloc: Global,
    folder: &mut F,
    words: &[Word],
    reads: Vec<PlanRead>,
    opened: &mut Vec<OpenRead<F::R>>,
) -> Result<(), TableError>
    requires empty { opened.old.items ≡ [] }
    requires shaped { All IsShaped reads.items }
    requires few { All HasFewNames reads.items }
    requires few_words { length words.now ≤ 1024 }
    ensures told { (files : Files) → F.files folder.old ≡ Some files
        → FitsTable (λ _. map (open_seen F.R.bytes) opened.new.items) result (collect (map (spec.open_read files words.now) reads.items)) }
    ensures tells { (files : Files) → F.files folder.old ≡ Some files → OnOk result (AllTold F.R.bytes opened.new.items) }
    ensures reads { OnOk result (map (λ one. one.read) opened.new.items ≡ reads.items) }
    ensures ready { OnOk result (AllReady F.R.bytes opened.new.items) }
    ensures refused { IfErr result (IsRefusal reads.items (length words.now)) }
    ensures cause { HasCause TableError.ReadFault (F.read_faults folder.old) (F.read_faults folder.new) result }
    ensures files { F.files folder.new ≡ F.files folder.old }
    ensures write_faults { F.write_faults folder.new ≡ F.write_faults folder.old }
    ensures lent { F.lent folder.new ≡ F.lent folder.old + count_open opened.new.items }
{
    for read in reads {
        // Room comes first, so that no reader is lost for want of it.
        opened.reserve(1)?;
        let one = open_read(alloc, folder, words, read)?;
        opened.push_reserved(one);
    }
    Ok(())
}

/// Opens the tables of a read relation. After an error their readers are given back.
#[tactic(auto, unfolding(crate::specs::Tables::open_read))]
fn open_read<F: Folder>(
    alloc: Global,
    folder: &mut F,
    words: &[Word],
    read: PlanRead,
) -> Result<OpenRead<F::R>, TableError>
    requires shaped { IsShaped read }
    requires few { HasFewNames read }
    requires few_words { length words.now ≤ 1024 }
    ensures told { (files : Files) → F.files folder.old ≡ Some files
        → FitsTable (open_seen F.R.bytes) result (spec.open_read files words.now read) }
    ensures tells { (files : Files) → F.files folder.old ≡ Some files → IfOk result (λ one. AreTold F.R.bytes one.tables.items) }
    ensures read { IfOk result (λ one. one.read ≡ read) }
    ensures ready { IfOk result (λ one. AreReady F.R.bytes read.types one.tables.items) }
    ensures refused { IfErr result (IsTableError read.relation (length words.now)) }
    ensures cause { HasCause TableError.ReadFault (F.read_faults folder.old) (F.read_faults folder.new) result }
    ensures files { F.files folder.new ≡ F.files folder.old }
    ensures write_faults { F.write_faults folder.new ≡ F.write_faults folder.old }
    ensures lent { IfOk result (λ one. F.lent folder.new ≡ F.lent folder.old + count_files one.tables.items) }
    ensures closed { OnErr result (F.lent folder.new ≡ F.lent folder.old) }
{
    let mut tables = Vec::new(alloc);
    if let Err(error) = open_tables(alloc, folder, words, &read, &mut tables) {
        close_tables(alloc, folder, tables)?;
        return Err(error);
    }
    Ok(OpenRead { read, tables })
}

/// Opens each table of a read relation, up to the first that isn't opened.
fn open_tables<F: Folder>(
    alloc: Global,
    folder: &mut F,
    words: &[Word],
    read: &PlanRead,
    tables: &mut Vec<Vec<OpenFile<F::R>>>,
) -> Result<(), TableError>
    requires empty { tables.old.items ≡ [] }
    requires shaped { IsShaped read.now }
    requires few { HasFewNames read.now }
    requires few_words { length words.now ≤ 1024 }
    ensures told { (files : Files) → F.files folder.old ≡ Some files
        → FitsTable (λ _. map (table_seen F.R.bytes) tables.new.items) result
        (collect (map (spec.files_named files words.now read.now) (spec.names_in read.now.origin))) }
    ensures tells { (files : Files) → F.files folder.old ≡ Some files → OnOk result (AreTold F.R.bytes tables.new.items) }
    ensures ready { OnOk result (AreReady F.R.bytes read.now.types tables.new.items) }
    ensures refused { IfErr result (IsTableError read.now.relation (length words.now)) }
    ensures cause { HasCause TableError.ReadFault (F.read_faults folder.old) (F.read_faults folder.new) result }
    ensures files { F.files folder.new ≡ F.files folder.old }
    ensures write_faults { F.write_faults folder.new ≡ F.write_faults folder.old }
    ensures lent { F.lent folder.new ≡ F.lent folder.old + count_files tables.new.items }
{
    for name in names_in(&read.origin) {
        // Room comes first, so that no reader is lost for want of it.
        tables.reserve(1)?;
        let table = open_table(
            alloc,
            folder,
            words,
            name.bytes(),
            read.relation,
            read.names.as_slice(),
            read.types.as_slice(),
        )?;
        tables.push_reserved(table);
    }
    Ok(())
}

/// The names of the tables that a read relation reads from files.
fn names_in(origin: &Origin) -> &[ByteList]
    ensures { result.now ≡ spec.names_in origin.now }
{
    match origin {
        Origin::Named(names) => names.as_slice(),
        Origin::Rows(_) => &[],
    }
}
