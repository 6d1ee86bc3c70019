// A table of a million rows, and each of its keys looked up.
ghost use Rattle.std.specs.Prelude.{◌≡◌, ◌∷◌, [], IfOk};
ghost use Rattle.batch.specs.BatchRows.{types_of};
ghost use Rattle.join_keys.specs.Storages.{key_storages};

use crate::chosen::{Choice, NUMBER, in_first_bucket, million};
use crate::counted::Counted;
use batch::Batch;
use hash_chains::{Chains, Keys};
use join_keys::KeyedBatch;
use std::alloc::Global;
use sub_types::NoMemory;

/// What is seen of a table.
#[derive(Clone, Copy)]
pub(crate) struct Seen {
    pub(crate) rows: u64,
    /// How many rows stand in the first bucket under the first seed.
    pub(crate) collide: u64,
    /// The rows whose key was found.
    pub(crate) found: u64,
    /// The comparisons while all keys were looked up.
    pub(crate) looked_up: u64,
}

/// Builds the table, and looks up all of its keys by keys of their own.
pub(crate) fn look_up_all(alloc: Global, choice: Choice) -> Result<Seen, NoMemory> {
    let batch = million(alloc, choice)?;
    let rows = batch.rows;
    let collide = in_first_bucket(alloc, &batch)?;
    let keys = keyed(alloc, batch)?;
    let chains = Chains::build(alloc, keys)?;
    let others = keyed(alloc, million(alloc, choice)?)?;
    let numbers = chains.numbers(alloc, &others)?;
    let mut found: u64 = 0;
    for row in 0..others.count() {
        if chains.has_match(&others, &numbers, row) {
            found = found.saturating_add(1);
        }
    }
    Ok(Seen {
        rows,
        collide,
        found,
        looked_up: others.comparisons(),
    })
}

// All rows by their one column.
fn keyed(alloc: Global, batch: Batch) -> Result<Counted, NoMemory>
    requires { types_of batch ≡ NUMBER ∷ [] }
    ensures { IfOk result (λ keys. key_storages (types_of keys.rows.batch) keys.rows.columns.items ≡ key_storages (NUMBER ∷ []) (0 ∷ [])) }
{
    let rows = batch.rows as usize;
    let columns = first(alloc)?;
    let keys = KeyedBatch::of(alloc, batch, columns, rows)?;
    Ok(Counted::new(keys))
}

// The first column alone.
fn first(alloc: Global) -> Result<Vec<u32>, NoMemory>
    ensures { IfOk result (λ columns. columns.items ≡ 0 ∷ []) }
{
    let mut columns = Vec::new(alloc);
    columns.push(0)?;
    Ok(columns)
}
