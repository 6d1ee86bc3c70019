// How many batches a read relation is read in.
ghost use Rattle.std.specs.Prelude.{◌≡◌, ◌+◌, IfOk, length};
ghost use Rattle.std.specs.List.{flat_map, sum_by};
ghost use Rattle.plan_tables.specs.Open.{table_seen, open_seen};
ghost use Rattle.plan_tables.specs.Tables as spec;

use crate::open::OpenRead;
use plan_reads::Origin;
use sub_types::NoMemory;
use table_open::OpenFile;
use world::Reader;

/// How many rows of a plan's own stand in a batch.
const BATCH_ROWS: u64 = 1024;

/// In how many batches a read relation is read: one for each block of its files, or one for each 1,024 rows of the plan's own.
/// More of them than a `u64` holds have room in no memory.
pub fn batches_in<R: Reader>(one: &OpenRead<R>) -> Result<u64, NoMemory>
    ensures { IfOk result (λ count. count ≡ spec.batches_in (open_seen R.bytes one.now)) }
{
    match one.read.origin {
        Origin::Named(_) => count_blocks(&one.tables),
        Origin::Rows(rows) => Ok(rows.div_ceil(BATCH_ROWS)),
    }
}

/// How many blocks the files of tables have.
fn count_blocks<R: Reader>(tables: &[Vec<OpenFile<R>>]) -> Result<u64, NoMemory>
    ensures { IfOk result (λ count. count ≡ sum_by (λ file. file.blocks) (flat_map (table_seen R.bytes) tables.now)) }
{
    let mut count = 0;
    for table in tables {
        count = added(count, blocks_in(table.as_slice())?)?;
    }
    Ok(count)
}

/// The same of the files of one table.
fn blocks_in<R: Reader>(files: &[OpenFile<R>]) -> Result<u64, NoMemory>
    ensures { IfOk result (λ count. count ≡ sum_by (λ file. length file.head.blocks.items) files.now) }
{
    let mut count = 0;
    for file in files {
        count = added(count, file.head.blocks.len() as u64)?;
    }
    Ok(count)
}

/// The sum, unless no `u64` holds it.
fn added(count: u64, more: u64) -> Result<u64, NoMemory>
    ensures { IfOk result (λ sum. sum ≡ count + more) }
{
    count.checked_add(more).ok_or(NoMemory)
}
