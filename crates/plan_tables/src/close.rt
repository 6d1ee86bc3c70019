// The readers of open files, given back.
ghost use Rattle.std.specs.Prelude.{◌≡◌, ◌-◌, ◌≤◌};
ghost use Rattle.plan_tables.specs.Open.{count_files, count_open};

use crate::open::OpenRead;
use std::alloc::Global;
use sub_types::NoMemory;
use table_open::{OpenFile, close_table};
use world::Folder;

/// Gives the readers of all read relations back, also where no memory was found for the reads of one of them.
pub fn close_reads<F: Folder>(
    alloc: Global,
    folder: &mut F,
    opened: Vec<OpenRead<F::R>>,
) -> Result<(), NoMemory>
    ensures never_falls { F.read_faults folder.old ≤ F.read_faults folder.new }
    ensures files { F.files folder.new ≡ F.files folder.old }
    ensures write_faults { F.write_faults folder.new ≡ F.write_faults folder.old }
    ensures lent { F.lent folder.new ≡ F.lent folder.old - count_open opened.items }
{
    let mut closed = Ok(());
    for one in opened {
        let OpenRead { read: _, tables } = one;
        if let Err(error) = close_tables(alloc, folder, tables) {
            closed = Err(error);
        }
    }
    closed
}

/// The same of the tables of one of them.
pub fn close_tables<F: Folder>(
    alloc: Global,
    folder: &mut F,
    tables: Vec<Vec<OpenFile<F::R>>>,
) -> Result<(), NoMemory>
    ensures never_falls { F.read_faults folder.old ≤ F.read_faults folder.new }
    ensures files { F.files folder.new ≡ F.files folder.old }
    ensures write_faults { F.write_faults folder.new ≡ F.write_faults folder.old }
    ensures lent { F.lent folder.new ≡ F.lent folder.old - count_files tables.items }
{
    let mut closed = Ok(());
    for table in tables {
        if let Err(error) = close_table(alloc, folder, table) {
            closed = Err(error);
        }
    }
    closed
}
