// The rows of the files of read relations.
ghost use Rattle.std.specs.Prelude.{◌≡◌, ◌-◌, ◌≤◌, ◌⊎◌, ◌++◌, [], ◌∷◌, ℕ, List, Ok, Err, IfOk, IsErrOf, IsSome, OnErr, OnOk, length, map};
ghost use Rattle.std.specs.List.{All, AllZip, flat_map};
ghost use Rattle.world.specs.Counts.{HasCause, Rose};
ghost use Rattle.row_engine.specs.Tables.{tables_seen};
ghost use Rattle.table_open.specs.Files.{TableFile};
ghost use Rattle.table_open.specs.Ready.{file_seen, IsReady};
ghost use Rattle.table_rows.specs.Blocks.{HoldsTypes};
ghost use Rattle.plan_tables.specs.Open.{table_seen, open_seen, AreTold, AreReady, AllTold, AllReady, count_files, count_open};
ghost use Rattle.plan_tables.specs.Read.{HasRead, IsEnd, IsTableOf, IsReadOf, AddsTables, table_end};
ghost use Rattle.plan_tables.specs.Tables as spec;

use crate::close::close_tables;
use crate::open::OpenRead;
use batch::Batch;
use plan_leaves::Items;
use plan_reads::PlanRead;
use row_engine::Table;
use std::alloc::Global;
use sub_types::{Fault, NoMemory};
use table_open::OpenFile;
use table_rows::{TableRead, read_file};
use world::{Folder, FolderError, Reader};

/// The table of each read relation: the rows of its files in order, in a batch for each block, up to the first fault. The other
/// tables are read all the same, and a read relation of the plan's own rows has none. All readers are given back.
pub fn read_tables<F: Folder>(
    alloc: Global,
    folder: &mut F,
    opened: Vec<OpenRead<F::R>>,
) -> Result<Vec<Table>, FolderError>
    requires ready { AllReady F.R.bytes opened.items }

    // What is denoted is read where the readers tell their bytes.
    ensures tables { AllTold F.R.bytes opened.items → IfOk result (λ tables.
        (relation : ℕ) → tables_seen tables.items relation ≡ spec.tested_tables (map (open_seen F.R.bytes) opened.items) relation) }

    // What is so of each table, whatever they tell.
    ensures reads { IfOk result (λ tables. map (λ table. table.relation) tables.items ≡ map (λ one. one.read.relation) opened.items) }
    ensures typed { IfOk result (λ tables. AllZip IsTableOf (map (λ one. one.read) opened.items) tables.items) }

    ensures cause { HasCause FolderError.Failed (F.read_faults folder.old) (F.read_faults folder.new) result }
    ensures files { F.files folder.new ≡ F.files folder.old }
    ensures write_faults { F.write_faults folder.new ≡ F.write_faults folder.old }
    ensures lent { F.lent folder.new ≡ F.lent folder.old - count_open opened.items }
{
    let mut tables = Vec::new(alloc);
    read_each(alloc, folder, opened, &mut tables)?;
    Ok(tables)
}

/// Reads the tables in order, up to the first that can't be read, and gives all readers back.
fn read_each<F: Folder>(
    alloc: Global,
    folder: &mut F,
    opened: Vec<OpenRead<F::R>>,
    tables: &mut Vec<Table>,
) -> Result<(), FolderError>
    requires ready { AllReady F.R.bytes opened.items }
    ensures read { OnOk result (AddsTables F.R.bytes opened.items tables.old.items tables.new.items) }
    ensures cause { HasCause FolderError.Failed (F.read_faults folder.old) (F.read_faults folder.new) result }
    ensures files { F.files folder.new ≡ F.files folder.old }
    ensures write_faults { F.write_faults folder.new ≡ F.write_faults folder.old }
    ensures lent { F.lent folder.new ≡ F.lent folder.old - count_open opened.items }
{
    let mut so_far = Ok(());
    for one in opened {
        so_far = read_next(alloc, folder, one, tables, so_far);
    }
    so_far
}

/// Reads one table more, unless one before it couldn't be read, and gives its readers back.
fn read_next<F: Folder>(
    alloc: Global,
    folder: &mut F,
    one: OpenRead<F::R>,
    tables: &mut Vec<Table>,
    so_far: Result<(), FolderError>,
) -> Result<(), FolderError>
    requires ready { AreReady F.R.bytes one.read.types one.tables.items }
    ensures read { OnOk result (AddsTables F.R.bytes (one ∷ []) tables.old.items tables.new.items) }
    ensures stays { OnErr so_far (result ≡ so_far) }
    ensures never_falls { F.read_faults folder.old ≤ F.read_faults folder.new }
    ensures failed { IsErrOf result FolderError.Failed → IsErrOf so_far FolderError.Failed ⊎ Rose (F.read_faults folder.old) (F.read_faults folder.new) }
    ensures files { F.files folder.new ≡ F.files folder.old }
    ensures write_faults { F.write_faults folder.new ≡ F.write_faults folder.old }
    ensures lent { F.lent folder.new ≡ F.lent folder.old - count_files one.tables.items }
{
    let OpenRead {
        read,
        tables: opened,
    } = one;
    match so_far {
        Ok(()) => read_more(alloc, folder, &read, opened, tables),
        Err(error) => {
            // The first error is told, also where no memory is found for the reads.
            let _ = close_tables(alloc, folder, opened);
            Err(error)
        }
    }
}

/// Reads one table more, and gives its readers back.
fn read_more<F: Folder>(
    alloc: Global,
    folder: &mut F,
    read: &PlanRead,
    opened: Vec<Vec<OpenFile<F::R>>>,
    tables: &mut Vec<Table>,
) -> Result<(), FolderError>
    requires ready { AreReady F.R.bytes read.now.types opened.items }
    ensures read { OnOk result (AddsTables F.R.bytes (record { read = read.now; tables = opened } ∷ []) tables.old.items tables.new.items) }
    ensures cause { HasCause FolderError.Failed (F.read_faults folder.old) (F.read_faults folder.new) result }
    ensures files { F.files folder.new ≡ F.files folder.old }
    ensures write_faults { F.write_faults folder.new ≡ F.write_faults folder.old }
    ensures lent { F.lent folder.new ≡ F.lent folder.old - count_files opened.items }
{
    let table = read_table(alloc, folder, read, opened)?;
    tables.push(table)?;
    Ok(())
}

/// The table of a read relation. All its readers are given back.
fn read_table<F: Folder>(
    alloc: Global,
    folder: &mut F,
    read: &PlanRead,
    opened: Vec<Vec<OpenFile<F::R>>>,
) -> Result<Table, FolderError>
    requires ready { AreReady F.R.bytes read.now.types opened.items }
    ensures read { IfOk result (IsReadOf F.R.bytes (record { read = read.now; tables = opened })) }
    ensures cause { HasCause FolderError.Failed (F.read_faults folder.old) (F.read_faults folder.new) result }
    ensures files { F.files folder.new ≡ F.files folder.old }
    ensures write_faults { F.write_faults folder.new ≡ F.write_faults folder.old }
    ensures lent { F.lent folder.new ≡ F.lent folder.old - count_files opened.items }
{
    let as_read = TableRead {
        relation: read.relation,
        types: read.types.as_slice(),
    };
    let mut batches = Vec::new(alloc);
    match read_parts(alloc, folder, opened, &as_read, &mut batches) {
        TableEnd::Whole => Ok(table_of(read.relation, batches, None)),
        TableEnd::Faulty(fault) => Ok(table_of(read.relation, batches, Some(fault))),
        TableEnd::Failed(error) => Err(error),
    }
}

/// The table of a relation with these batches and this end.
fn table_of(relation: u32, batches: Vec<Batch>, end: Option<Fault>) -> Table
    ensures { result ≡ record { relation = relation; batches = batches.items; end = end } }
{
    Table {
        relation,
        batches: Items::from_vec(batches),
        end,
    }
}

/// How far a table was read.
#[derive(Clone, Copy, Debug)]
pub(crate) enum TableEnd {
    /// So far all of it.
    Whole,
    /// Up to this fault.
    Faulty(Fault),
    Failed(FolderError),
}

/// The end of a table whose last file was read so.
fn end_of(end: Result<Option<Fault>, FolderError>) -> TableEnd
    ensures { result ≡ table_end end }
{
    match end {
        Ok(None) => TableEnd::Whole,
        Ok(Some(fault)) => TableEnd::Faulty(fault),
        Err(error) => TableEnd::Failed(error),
    }
}

/// Reads the files of each table in order, up to the first fault, and gives all readers back.
fn read_parts<F: Folder>(
    alloc: Global,
    folder: &mut F,
    opened: Vec<Vec<OpenFile<F::R>>>,
    read: &TableRead<'_>,
    batches: &mut Vec<Batch>,
) -> TableEnd
    requires empty { batches.old.items ≡ [] }
    requires ready { AreReady F.R.bytes read.now.types.now opened.items }
    ensures read { AreTold F.R.bytes opened.items
        → HasRead read.now.relation read.now.types.now (flat_map (table_seen F.R.bytes) opened.items) batches.new.items result }
    ensures typed { All (HoldsTypes read.now.types.now) batches.new.items }
    ensures faults { IsEnd read.now.relation result }
    ensures never_falls { F.read_faults folder.old ≤ F.read_faults folder.new }
    ensures failed { result ≡ TableEnd.Failed FolderError.Failed → Rose (F.read_faults folder.old) (F.read_faults folder.new) }
    ensures files { F.files folder.new ≡ F.files folder.old }
    ensures write_faults { F.write_faults folder.new ≡ F.write_faults folder.old }
    ensures lent { F.lent folder.new ≡ F.lent folder.old - count_files opened.items }
{
    let mut end = TableEnd::Whole;
    for table in opened {
        end = read_files(alloc, folder, table, read, batches, end);
    }
    end
}

/// Reads the files of one table more in order, up to the first fault, and gives all readers back.
fn read_files<F: Folder>(
    alloc: Global,
    folder: &mut F,
    table: Vec<OpenFile<F::R>>,
    read: &TableRead<'_>,
    batches: &mut Vec<Batch>,
    so_far: TableEnd,
) -> TableEnd
    requires ready { All (IsReady F.R.bytes read.now.types.now) table.items }
    ensures read { All (λ file. IsSome (F.R.bytes file.reader)) table.items → (files : List TableFile)
        → HasRead read.now.relation read.now.types.now files batches.old.items so_far
        → HasRead read.now.relation read.now.types.now (files ++ table_seen F.R.bytes table) batches.new.items result }
    ensures typed { All (HoldsTypes read.now.types.now) batches.old.items → All (HoldsTypes read.now.types.now) batches.new.items }
    ensures faults { IsEnd read.now.relation so_far → IsEnd read.now.relation result }
    ensures never_falls { F.read_faults folder.old ≤ F.read_faults folder.new }
    ensures failed { result ≡ TableEnd.Failed FolderError.Failed → (so_far ≡ TableEnd.Failed FolderError.Failed) ⊎ Rose (F.read_faults folder.old) (F.read_faults folder.new) }
    ensures files { F.files folder.new ≡ F.files folder.old }
    ensures write_faults { F.write_faults folder.new ≡ F.write_faults folder.old }
    ensures lent { F.lent folder.new ≡ F.lent folder.old - length table.items }
{
    let mut end = so_far;
    for file in table {
        end = read_one(alloc, folder, file, read, batches, end);
    }
    end
}

/// Reads one file more, unless the table has ended, and gives its reader back.
fn read_one<F: Folder>(
    alloc: Global,
    folder: &mut F,
    file: OpenFile<F::R>,
    read: &TableRead<'_>,
    batches: &mut Vec<Batch>,
    so_far: TableEnd,
) -> TableEnd
    requires ready { IsReady F.R.bytes read.now.types.now file }
    ensures read { IsSome (F.R.bytes file.reader) → (files : List TableFile)
        → HasRead read.now.relation read.now.types.now files batches.old.items so_far
        → HasRead read.now.relation read.now.types.now (files ++ file_seen F.R.bytes file ∷ []) batches.new.items result }
    ensures typed { All (HoldsTypes read.now.types.now) batches.old.items → All (HoldsTypes read.now.types.now) batches.new.items }
    ensures faults { IsEnd read.now.relation so_far → IsEnd read.now.relation result }
    ensures never_falls { F.read_faults folder.old ≤ F.read_faults folder.new }
    ensures failed { result ≡ TableEnd.Failed FolderError.Failed → (so_far ≡ TableEnd.Failed FolderError.Failed) ⊎ Rose (F.read_faults folder.old) (F.read_faults folder.new) }
    ensures files { F.files folder.new ≡ F.files folder.old }
    ensures write_faults { F.write_faults folder.new ≡ F.write_faults folder.old }
    ensures lent { F.lent folder.new ≡ F.lent folder.old - 1 }
{
    let mut file = file;
    let next = read_blocks(alloc, &mut file, read, batches, so_far);
    let OpenFile { reader, .. } = file;
    match folder.give_back(alloc, reader) {
        Ok(()) => next,
        Err(NoMemory) => TableEnd::Failed(FolderError::NoMemory),
    }
}

/// Reads the blocks of one file more, unless the table has ended.
fn read_blocks<R: Reader>(
    alloc: Global,
    file: &mut OpenFile<R>,
    read: &TableRead<'_>,
    batches: &mut Vec<Batch>,
    so_far: TableEnd,
) -> TableEnd
    requires ready { IsReady R.bytes read.now.types.now file.old }
    ensures read { IsSome (R.bytes file.old.reader) → (files : List TableFile)
        → HasRead read.now.relation read.now.types.now files batches.old.items so_far
        → HasRead read.now.relation read.now.types.now (files ++ file_seen R.bytes file.old ∷ []) batches.new.items result }
    ensures typed { All (HoldsTypes read.now.types.now) batches.old.items → All (HoldsTypes read.now.types.now) batches.new.items }
    ensures faults { IsEnd read.now.relation so_far → IsEnd read.now.relation result }
    ensures never_falls { R.faults file.old.reader ≤ R.faults file.new.reader }
    ensures failed { result ≡ TableEnd.Failed FolderError.Failed → (so_far ≡ TableEnd.Failed FolderError.Failed) ⊎ Rose (R.faults file.old.reader) (R.faults file.new.reader) }
{
    match so_far {
        TableEnd::Whole => end_of(read_file(
            alloc,
            &mut file.reader,
            &file.head,
            file.file,
            &file.wanted,
            read,
            batches,
        )),
        TableEnd::Faulty(fault) => TableEnd::Faulty(fault),
        TableEnd::Failed(error) => TableEnd::Failed(error),
    }
}
