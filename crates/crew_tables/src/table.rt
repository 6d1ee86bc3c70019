// The table of one read relation.
ghost use Rattle.std.specs.Prelude.{◌≡◌, ◌-◌, ◌<◌, ◌≤◌, ◌^◌, [], IfOk, IfSome, length, map, sum_by, vec_len};
ghost use Rattle.std.specs.List.{All};
ghost use Rattle.world.specs.Counts.{HasCause};
ghost use Rattle.block_source.specs.Seen.{AreHeads};
ghost use Rattle.table_rows.specs.Blocks.{HaveKinds};
ghost use Rattle.plan_tables.specs.Open.{AreReady, count_files};
ghost use Rattle.crew_tables.specs.Apart.{HasNone, HasRoom, seen_of};
ghost use Rattle.crew_tables.specs.Made.{AllTell, IsMadeFrom, IsMadeOf};

use crate::apart::{Apart, count_of, take_tables};
use crate::close::close_readers;
use crate::receipt::{receipt_alone, receipt_of};
use crate::round::{TableRound, run_table};
use crate::workers::Crew;
use batch::Batch;
use block_rows::TableRows;
use block_source::{BlockFile, TableBlocks};
use plan_leaves::Items;
use plan_reads::PlanRead;
use plan_tables::close_tables;
use row_engine::Table;
use run_words::PipeReceipt;
use std::alloc::Global;
use std::marker::{Send, Sync};
use std::sync::Wait;
use std::thread::Threads;
use sub_types::{Fault, NoMemory};
use table_open::OpenFile;
use world::{Folder, FolderError, Gate, Reader};

/// The most files of a read relation.
const MAX_FILES: usize = 1 << 20;

/// The table of a read relation, and its receipt.
#[derive(Drop)]
pub(crate) struct Made {
    pub table: Table,
    pub receipt: PipeReceipt,
}

/// Reads the table of a read relation by the workers. All its readers are given back. More than 2^20 open files are answered with
/// `NoMemory`.
pub(crate) fn read_table<H: Threads + Wait + Sync, F: Folder, G: Gate>(
    crew: &Crew<'_, H, G>,
    alloc: Global,
    folder: &mut F,
    read: &PlanRead,
    opened: Vec<Vec<OpenFile<F::R>>>,
) -> Result<Made, FolderError>
    requires ready { AreReady F.R.bytes read.now.types opened.items }
    ensures made { IfOk result (IsMadeOf F.R.bytes crew.now.workers (record { read = read.now; tables = opened })) }
    ensures cause { HasCause FolderError.Failed (F.read_faults folder.old) (F.read_faults folder.new) result }
    ensures files { F.files folder.new ≡ F.files folder.old }
    ensures write_faults { F.write_faults folder.new ≡ F.write_faults folder.old }
    ensures lent { F.lent folder.new ≡ F.lent folder.old - count_files opened.items }
{
    let Some(apart) = room_for(alloc, &opened) else {
        let _ = close_tables(alloc, folder, opened);
        return Err(FolderError::NoMemory);
    };
    let mut apart = apart;
    take_tables(opened, &mut apart);
    let made = read_apart(crew, alloc, folder, read, apart)?;
    Ok(made)
}

/// Room for the files of tables.
fn room_for<R: Reader>(alloc: Global, opened: &[Vec<OpenFile<R>>]) -> Option<Apart<R>>
    ensures none { IfSome result HasNone }
    ensures room { IfSome result (HasRoom (count_files opened.now)) }
    ensures few { IfSome result (λ _. count_files opened.now ≤ 2 ^ 20) }
{
    let count = count_of(opened)?;
    if count > MAX_FILES {
        return None;
    }
    Apart::with_room(alloc, count).ok()
}

/// Reads the files of a read relation by the workers, and gives their readers back.
fn read_apart<H: Threads + Wait + Sync, F: Folder, G: Gate>(
    crew: &Crew<'_, H, G>,
    alloc: Global,
    folder: &mut F,
    read: &PlanRead,
    apart: Apart<F::R>,
) -> Result<Made, FolderError>
    requires few { vec_len apart.files ≤ 2 ^ 20 }
    requires counts { (vec_len apart.numbers ≡ vec_len apart.files) × (vec_len apart.readers ≡ vec_len apart.files) }
    requires heads { AreHeads apart.files.items (map F.R.bytes apart.readers.items) }
    requires kinds { All (λ one. HaveKinds one.head.schema.columns one.wanted.items read.now.types) apart.files.items }
    ensures made { IfOk result (IsMadeFrom read.now crew.now.workers (AllTell F.R.bytes apart.readers.items) (seen_of apart.files.items apart.numbers.items (map F.R.bytes apart.readers.items))) }
    ensures cause { HasCause FolderError.Failed (F.read_faults folder.old) (F.read_faults folder.new) result }
    ensures files { F.files folder.new ≡ F.files folder.old }
    ensures write_faults { F.write_faults folder.new ≡ F.write_faults folder.old }
    ensures lent { F.lent folder.new ≡ F.lent folder.old - vec_len apart.readers }
{
    let Apart {
        files,
        numbers,
        readers,
    } = apart;
    let mut readers = readers;
    let made = read_files(crew, alloc, read, files, &numbers, &mut readers);
    let closed = close_readers(alloc, folder, readers);
    let made = made?;
    closed?;
    Ok(made)
}

/// Reads files by the workers.
fn read_files<H: Threads + Wait + Sync, R: Reader + Send, G: Gate>(
    crew: &Crew<'_, H, G>,
    alloc: Global,
    read: &PlanRead,
    files: Vec<BlockFile>,
    numbers: &[u32],
    readers: &mut Vec<R>,
) -> Result<Made, FolderError>
    requires few { vec_len files ≤ 2 ^ 20 }
    requires numbers { length numbers.now ≡ vec_len files }
    requires count { vec_len readers.old ≡ vec_len files }
    requires heads { AreHeads files.items (map R.bytes readers.old.items) }
    requires kinds { All (λ one. HaveKinds one.head.schema.columns one.wanted.items read.now.types) files.items }
    ensures made { IfOk result (IsMadeFrom read.now crew.now.workers (AllTell R.bytes readers.old.items) (seen_of files.items numbers.now (map R.bytes readers.old.items))) }
    ensures cause { HasCause FolderError.Failed (sum_by R.faults readers.old.items) (sum_by R.faults readers.new.items) result }
    ensures count { vec_len readers.new ≡ vec_len readers.old }
{
    if files.len() == 0 {
        let receipt = receipt_alone(alloc, read, crew.workers)?;
        return Ok(Made {
            table: table_of(read.relation, Vec::new(alloc), None),
            receipt,
        });
    }
    let blocks = TableBlocks::new(alloc, files)?;
    let made = read_blocks(crew, alloc, read, &blocks, numbers, readers)?;
    Ok(made)
}

/// Reads the blocks of files by the workers.
fn read_blocks<H: Threads + Wait + Sync, R: Reader + Send, G: Gate>(
    crew: &Crew<'_, H, G>,
    alloc: Global,
    read: &PlanRead,
    blocks: &TableBlocks,
    numbers: &[u32],
    readers: &mut Vec<R>,
) -> Result<Made, FolderError>
    requires some { 0 < vec_len blocks.now.files }
    requires numbers { length numbers.now ≡ vec_len blocks.now.files }
    requires count { vec_len readers.old ≡ vec_len blocks.now.files }
    requires heads { AreHeads blocks.now.files.items (map R.bytes readers.old.items) }
    requires kinds { All (λ one. HaveKinds one.head.schema.columns one.wanted.items read.now.types) blocks.now.files.items }
    ensures made { IfOk result (IsMadeFrom read.now crew.now.workers (AllTell R.bytes readers.old.items) (seen_of blocks.now.files.items numbers.now (map R.bytes readers.old.items))) }
    ensures cause { HasCause FolderError.Failed (sum_by R.faults readers.old.items) (sum_by R.faults readers.new.items) result }
    ensures count { vec_len readers.new ≡ vec_len readers.old }
{
    let rows = TableRows {
        table: blocks,
        numbers,
        relation: read.relation,
        types: read.types.as_slice(),
    };
    read_rows(crew, alloc, read, &rows, readers)
}

/// Reads the rows of a read relation's blocks by the workers.
fn read_rows<H: Threads + Wait + Sync, R: Reader + Send, G: Gate>(
    crew: &Crew<'_, H, G>,
    alloc: Global,
    read: &PlanRead,
    rows: &TableRows,
    readers: &mut Vec<R>,
) -> Result<Made, FolderError>
    requires relation { rows.now.relation ≡ read.now.relation }
    requires types { rows.now.types.now ≡ read.now.types }
    requires count { vec_len readers.old ≡ vec_len rows.now.table.now.files }
    requires heads { AreHeads rows.now.table.now.files.items (map R.bytes readers.old.items) }
    requires kinds { All (λ one. HaveKinds one.head.schema.columns one.wanted.items rows.now.types.now) rows.now.table.now.files.items }
    ensures made { IfOk result (IsMadeFrom read.now crew.now.workers (AllTell R.bytes readers.old.items) (seen_of rows.now.table.now.files.items rows.now.numbers.now (map R.bytes readers.old.items))) }
    ensures cause { HasCause FolderError.Failed (sum_by R.faults readers.old.items) (sum_by R.faults readers.new.items) result }
    ensures count { vec_len readers.new ≡ vec_len readers.old }
{
    let round = run_table(crew.rt, alloc, rows, readers, crew.workers, crew.gate)?;
    let TableRound {
        batches,
        end,
        receipts,
        left,
    } = round;
    let count = rows.table.places.len() as u64;
    let receipt = receipt_of(alloc, read, count, receipts, left, crew.workers)?;
    Ok(Made {
        table: table_of(read.relation, batches, end),
        receipt,
    })
}

/// The table of a relation with these batches and this end.
fn table_of(relation: u32, batches: Vec<Batch>, end: Option<Fault>) -> Table
    ensures { result ≡ record { relation = relation; batches = batches.items; end = end } }
{
    Table {
        relation,
        batches: Items::from_vec(batches),
        end,
    }
}
