// The files of tables apart from their readers.
ghost use Rattle.std.specs.Prelude.{◌≡◌, ◌+◌, ◌≤◌, ◌^◌, List, [], ◌∷◌, IfOk, IfSome, length};
ghost use Rattle.std.specs.List.{All};
ghost use Rattle.sub_types.specs.declared.kind.Ty.{Ty};
ghost use Rattle.table_open.specs.Ready.{IsReady};
ghost use Rattle.plan_tables.specs.Open.{AreReady, count_files};
ghost use Rattle.open_blocks.specs.Apart.{AreAdded, HasNone, HasRoom, files_of};

use block_source::BlockFile;
use std::alloc::Global;
use sub_types::NoMemory;
use table_open::OpenFile;
use world::Reader;

/// The most files of a read relation.
const MAX_FILES: usize = 1 << 20;

/// Files, the numbers of their words and their readers, in one order.
#[derive(Drop)]
pub(crate) struct Apart<R> {
    pub files: Vec<BlockFile>,
    pub numbers: Vec<u32>,
    pub readers: Vec<R>,
}

impl<R: Reader> Apart<R> {
    /// None yet, with room for so many.
    pub fn with_room(alloc: Global, count: usize) -> Result<Apart<R>, NoMemory>
        ensures none { IfOk result HasNone }
        ensures room { IfOk result (HasRoom count) }
    {
        Ok(Apart {
            files: Vec::with_capacity(alloc, count)?,
            numbers: Vec::with_capacity(alloc, count)?,
            readers: Vec::with_capacity(alloc, count)?,
        })
    }
}

/// Room for the files of tables. For more than 2^20 there is none.
pub(crate) fn room_for<R: Reader>(
    alloc: Global,
    opened: &[Vec<OpenFile<R>>],
) -> Result<Apart<R>, NoMemory>
    ensures none { IfOk result HasNone }
    ensures room { IfOk result (HasRoom (count_files opened.now)) }
    ensures few { IfOk result (λ _. count_files opened.now ≤ 2 ^ 20) }
{
    let Some(count) = count_of(opened) else {
        return Err(NoMemory);
    };
    if count > MAX_FILES {
        return Err(NoMemory);
    }
    let room = Apart::with_room(alloc, count)?;
    Ok(room)
}

/// How many files tables have, unless no number holds it.
fn count_of<R: Reader>(tables: &[Vec<OpenFile<R>>]) -> Option<usize>
    ensures { IfSome result (λ count. count ≡ count_files tables.now) }
{
    let mut count = 0;
    for table in tables {
        count = added(count, table.len())?;
    }
    Some(count)
}

fn added(count: usize, more: usize) -> Option<usize>
    ensures { IfSome result (λ sum. sum ≡ count + more) }
{
    count.checked_add(more)
}

/// Takes the files of tables apart, table by table.
pub(crate) fn take_tables<R: Reader>(opened: Vec<Vec<OpenFile<R>>>, apart: &mut Apart<R>)
    requires room { HasRoom (count_files opened.items) apart.old }
    requires ready { (types : List Ty) × AreReady R.bytes types opened.items }
    ensures { AreAdded (files_of opened.items) apart.old apart.new }
{
    for table in opened {
        take_table(table, apart);
    }
}

fn take_table<R: Reader>(table: Vec<OpenFile<R>>, apart: &mut Apart<R>)
    requires room { HasRoom (length table.items) apart.old }
    requires ready { (types : List Ty) × All (IsReady R.bytes types) table.items }
    ensures added { AreAdded table.items apart.old apart.new }
{
    for file in table {
        take_file(file, apart);
    }
}

fn take_file<R: Reader>(file: OpenFile<R>, apart: &mut Apart<R>)
    requires room { HasRoom 1 apart.old }
    requires ready { (types : List Ty) × IsReady R.bytes types file }
    ensures added { AreAdded (file ∷ []) apart.old apart.new }
{
    let OpenFile {
        file: number,
        head,
        reader,
        wanted,
    } = file;
    apart.files.push_reserved(BlockFile { head, wanted });
    apart.numbers.push_reserved(number);
    apart.readers.push_reserved(reader);
}
