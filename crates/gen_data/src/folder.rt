// The demo's files in memory.
ghost use Rattle.std.specs.Prelude.{◌≡◌, ◌≤◌, [], length, IfOk, OnOk};
ghost use Rattle.std.specs.FinMap as map_of;
ghost use Rattle.std.specs.List.{sum_by};
ghost use Rattle.batch.specs.BatchRows.{rows_of, types_of};
ghost use Rattle.arrow_meta.specs.File.{file_of};
ghost use Rattle.gen_data.specs.Rows as spec;
ghost use Rattle.gen_data.specs.Files.{demo_files};

use crate::columns::{TEXT, WHOLE};
use crate::plan::{line_names, order_names, plan_bytes};
use crate::tables::{lines, orders};
use arrow_write::{WriteError, write_file};
use batch::Batch;
use plan_leaves::Items;
use std::alloc::Global;
use std::slice;
use sub_types::{ByteList, NoMemory, Ty};
use world::SureFolder;

/// The most orders of the demo.
pub const MAX_NUMBER: u32 = 200_000;

/// The demo's plan as the file `plan`, and its tables of so many orders and their lines as the Arrow files `orders` and `lines`. The
/// folder's calls never fail but for memory.
#[tactic(auto, unfolding(crate::specs::Files::demo_files, crate::specs::Files::orders_file, crate::specs::Files::lines_file, world::specs::Files::written))]
pub fn demo_folder(alloc: Global, number: u32) -> Result<SureFolder, NoMemory>
    requires few { number ≤ spec.MAX_NUMBER }
    ensures folder { IfOk result (λ folder. folder ≡ record { files = demo_files number; reads = []; lent = 0 }) }
{
    let mut folder = SureFolder::new(alloc);
    folder.put_file("plan", &plan_bytes(alloc)?)?;
    let names = order_names(alloc)?;
    let table = orders(alloc, number)?;
    put_table(alloc, &mut folder, "orders", &names, &[WHOLE, TEXT], &table)?;
    let names = line_names(alloc)?;
    let table = lines(alloc, number)?;
    put_table(alloc, &mut folder, "lines", &names, &[WHOLE, WHOLE], &table)?;
    Ok(folder)
}

// Sets a file to that of a table.
#[tactic(auto, unfolding(world::specs::Files::written))]
fn put_table(
    alloc: Global,
    folder: &mut SureFolder,
    name: &str,
    names: &Items<ByteList>,
    types: &[Ty],
    table: &Batch,
) -> Result<(), NoMemory>
    requires same_count { length names.now ≡ length types.now }
    requires few { length names.now ≤ 2 }
    requires short { sum_by length names.now ≤ 100 }
    requires types { types_of table.now ≡ types.now }
    requires few_rows { table.now.rows ≤ 800000 }
    ensures { OnOk result (folder.new ≡ record folder.old { files = map_of.insert folder.old.files name.now (file_of names.now types.now (rows_of table.now)) }) }
{
    match write_file(
        alloc,
        folder,
        name,
        names.as_slice(),
        types,
        slice::from_ref(table),
    ) {
        Ok(()) => Ok(()),
        // Its files never fail to be written.
        Err(WriteError::WriteFault | WriteError::NoMemory) => Err(NoMemory),
    }
}
