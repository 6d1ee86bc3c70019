// The open files of read relations, taken to be read by many workers.
ghost use Rattle.std.specs.Prelude.{◌≡◌, ◌+◌, ◌-◌, ◌≤◌, ◌^◌, [], ◌∷◌, ◌++◌, IfOk, OnOk, OnErr, vec_len};
ghost use Rattle.std.specs.List.{AllZip};
ghost use Rattle.std.specs.Vec.{vec_capacity};
ghost use Rattle.plan_tables.specs.Open.{AreReady, AllReady, count_files, count_open};
ghost use Rattle.open_blocks.specs.Apart.{ArePartsOf, files_of};
ghost use Rattle.open_blocks.specs.Files.{AreFilesOf, count_readers, AreMadeOf};
ghost use Rattle.open_blocks.specs.Taken.{Adds, IsKept};

use crate::apart::{Apart, room_for, take_tables};
use crate::close::{close_files, close_readers};
use crate::files::ReadFiles;
use block_source::{BlockFile, TableBlocks};
use plan_tables::{OpenRead, close_tables};
use std::alloc::Global;
use sub_types::NoMemory;
use world::Folder;

/// The open files of each read relation, in order, to be read by many workers. A read relation of the plan's own rows has none. For more
/// than 2^20 files of one read relation there is no memory. After an error all readers are given back.
pub fn take_files<F: Folder>(
    alloc: Global,
    folder: &mut F,
    opened: Vec<OpenRead<F::R>>,
) -> Result<Vec<ReadFiles<F::R>>, NoMemory>
    requires ready { AllReady F.R.bytes opened.items }
    ensures taken { IfOk result (λ all. AllZip (AreFilesOf F.R.bytes) opened.items all.items) }
    ensures never_falls { F.read_faults folder.old ≤ F.read_faults folder.new }
    ensures files { F.files folder.new ≡ F.files folder.old }
    ensures write_faults { F.write_faults folder.new ≡ F.write_faults folder.old }
    ensures lent { OnOk result (F.lent folder.new ≡ F.lent folder.old) }
    ensures closed { OnErr result (F.lent folder.new ≡ F.lent folder.old - count_open opened.items) }
{
    let mut all = Vec::new(alloc);
    match take_each(alloc, folder, opened, &mut all) {
        Ok(()) => Ok(all),
        Err(error) => {
            close_files(alloc, folder, all)?;
            Err(error)
        }
    }
}

/// Takes the files of each, up to the first for which there is no memory. The readers of those behind it are given back.
fn take_each<F: Folder>(
    alloc: Global,
    folder: &mut F,
    opened: Vec<OpenRead<F::R>>,
    all: &mut Vec<ReadFiles<F::R>>,
) -> Result<(), NoMemory>
    requires empty { all.old.items ≡ [] }
    requires ready { AllReady F.R.bytes opened.items }
    ensures taken { OnOk result (AllZip (AreFilesOf F.R.bytes) opened.items all.new.items) }
    ensures kept { IsKept (F.lent folder.old) (F.lent folder.new) (count_open opened.items) (count_readers all.new.items) }
    ensures never_falls { F.read_faults folder.old ≤ F.read_faults folder.new }
    ensures files { F.files folder.new ≡ F.files folder.old }
    ensures write_faults { F.write_faults folder.new ≡ F.write_faults folder.old }
{
    let mut so_far = Ok(());
    for one in opened {
        so_far = take_next(alloc, folder, one, all, so_far);
    }
    so_far
}

/// Takes the files of one more, unless there was no memory for one before it; then its readers are given back.
fn take_next<F: Folder>(
    alloc: Global,
    folder: &mut F,
    one: OpenRead<F::R>,
    all: &mut Vec<ReadFiles<F::R>>,
    so_far: Result<(), NoMemory>,
) -> Result<(), NoMemory>
    requires ready { AreReady F.R.bytes one.read.types one.tables.items }
    ensures taken { OnOk result (Adds (AreFilesOf F.R.bytes) (one ∷ []) all.old.items all.new.items) }
    ensures stays { OnErr so_far (result ≡ so_far) }
    ensures kept { IsKept (F.lent folder.old) (F.lent folder.new) (count_readers all.old.items + count_files one.tables.items) (count_readers all.new.items) }
    ensures never_falls { F.read_faults folder.old ≤ F.read_faults folder.new }
    ensures files { F.files folder.new ≡ F.files folder.old }
    ensures write_faults { F.write_faults folder.new ≡ F.write_faults folder.old }
{
    match so_far {
        Ok(()) => take_one(alloc, folder, one, all),
        Err(error) => {
            let OpenRead { read: _, tables } = one;
            let _ = close_tables(alloc, folder, tables);
            Err(error)
        }
    }
}

/// Takes the files of one more, or gives its readers back where there is no memory.
fn take_one<F: Folder>(
    alloc: Global,
    folder: &mut F,
    one: OpenRead<F::R>,
    all: &mut Vec<ReadFiles<F::R>>,
) -> Result<(), NoMemory>
    requires ready { AreReady F.R.bytes one.read.types one.tables.items }
    ensures taken { OnOk result (Adds (AreFilesOf F.R.bytes) (one ∷ []) all.old.items all.new.items) }
    ensures kept { IsKept (F.lent folder.old) (F.lent folder.new) (count_readers all.old.items + count_files one.tables.items) (count_readers all.new.items) }
    ensures never_falls { F.read_faults folder.old ≤ F.read_faults folder.new }
    ensures files { F.files folder.new ≡ F.files folder.old }
    ensures write_faults { F.write_faults folder.new ≡ F.write_faults folder.old }
{
    let OpenRead { read, tables } = one;
    match room_for(alloc, &tables) {
        Ok(room) => {
            let mut apart = room;
            take_tables(tables, &mut apart);
            add_apart(alloc, folder, read.relation, apart, all)
        }
        Err(error) => {
            let _ = close_tables(alloc, folder, tables);
            Err(error)
        }
    }
}

/// Adds files that were taken apart, or gives their readers back where there is no memory.
fn add_apart<F: Folder>(
    alloc: Global,
    folder: &mut F,
    relation: u32,
    apart: Apart<F::R>,
    all: &mut Vec<ReadFiles<F::R>>,
) -> Result<(), NoMemory>
    requires { vec_len apart.files ≤ 2 ^ 20 }
    ensures added { OnOk result (Adds AreMadeOf ((relation, apart) ∷ []) all.old.items all.new.items) }
    ensures kept { IsKept (F.lent folder.old) (F.lent folder.new) (count_readers all.old.items + vec_len apart.readers) (count_readers all.new.items) }
    ensures never_falls { F.read_faults folder.old ≤ F.read_faults folder.new }
    ensures files { F.files folder.new ≡ F.files folder.old }
    ensures write_faults { F.write_faults folder.new ≡ F.write_faults folder.old }
{
    let Apart {
        files,
        numbers,
        readers,
    } = apart;
    match blocks_of(alloc, files, all) {
        Ok(blocks) => {
            all.push_reserved(ReadFiles {
                relation,
                blocks,
                numbers,
                readers,
            });
            Ok(())
        }
        Err(error) => {
            let _ = close_readers(alloc, folder, readers);
            Err(error)
        }
    }
}

/// The blocks of files, and room for one more read relation's.
fn blocks_of<R: Drop>(
    alloc: Global,
    files: Vec<BlockFile>,
    all: &mut Vec<ReadFiles<R>>,
) -> Result<TableBlocks, NoMemory>
    requires { vec_len files ≤ 2 ^ 20 }
    ensures blocks { IfOk result (λ blocks. blocks.files.items ≡ files.items) }
    ensures room { OnOk result (vec_len all.new + 1 ≤ vec_capacity all.new) }
    ensures all { all.new.items ≡ all.old.items }
{
    all.reserve(1)?;
    let blocks = TableBlocks::new(alloc, files)?;
    Ok(blocks)
}
