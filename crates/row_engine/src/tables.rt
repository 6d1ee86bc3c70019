// The tables that read relations read.
ghost use Rattle.std.specs.List.{flat_map};
ghost use Rattle.std.specs.Prelude.{◌≡◌, ◌<◌, ◌++◌, [], IfOk, OnOk, slice_index_or};
ghost use Rattle.batch.specs.BatchRows.{rows_of};
ghost use Rattle.row_steps.specs.Seen.{seen};
ghost use Rattle.row_engine.specs.Tables.{tables_seen};

use batch::Batch;
use plan_leaves::Items;
use row_steps::{RowStream, Stream, ended};
use std::alloc::Global;
use sub_types::{Fault, NoMemory, Value};

/// The table of the read relation of this number: its rows in batches, and what ends them.
#[derive(Drop)]
pub struct Table {
    pub relation: u32,
    pub batches: Items<Batch>,
    pub end: Option<Fault>,
}

/// The rows of the table of a relation, none where there is no such table.
pub fn table_rows(alloc: Global, tables: &[Table], relation: u32) -> Result<RowStream, NoMemory>
    ensures { IfOk result (λ s. seen s ≡ tables_seen tables.now relation) }
{
    for table in tables {
        if table.relation == relation {
            return Ok(Stream {
                rows: rows_of_all(alloc, table.batches.as_slice())?,
                end: table.end,
            });
        }
    }
    Ok(ended(alloc, None))
}

/// The rows of batches in order.
fn rows_of_all(alloc: Global, batches: &[Batch]) -> Result<Items<Items<Value>>, NoMemory>
    ensures { IfOk result (λ rows. rows ≡ flat_map rows_of batches.now) }
{
    let mut rows = Items::new(alloc);
    for batch in batches {
        push_rows(alloc, batch, &mut rows)?;
    }
    Ok(rows)
}

/// Adds the rows of a batch.
fn push_rows(alloc: Global, batch: &Batch, rows: &mut Items<Items<Value>>) -> Result<(), NoMemory>
    ensures { OnOk result (rows.new ≡ rows.old ++ rows_of batch.now) }
{
    for row in 0..batch.rows {
        rows.push(row_at(alloc, batch, row)?)?;
    }
    Ok(())
}

/// The row at a place of a batch.
fn row_at(alloc: Global, batch: &Batch, row: u64) -> Result<Items<Value>, NoMemory>
    requires { row < batch.now.rows }
    ensures { IfOk result (λ values. values ≡ slice_index_or (rows_of batch.now) row []) }
{
    let mut values = Items::new(alloc);
    for column in 0..batch.columns.len() {
        values.push(batch.value_at(alloc, column, row)?)?;
    }
    Ok(values)
}
