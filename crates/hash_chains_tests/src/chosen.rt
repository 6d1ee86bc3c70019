// Keys of one column: numbers that were chosen to collide, numbers in order, and one number again and again.
ghost use Rattle.std.specs.Prelude.{◌≡◌, ◌∷◌, [], IfOk};
ghost use Rattle.batch.specs.BatchRows.{types_of};

use batch::{Batch, Column, ColumnBuilder};
use key_hashes::hash_keys;
use std::alloc::Global;
use sub_types::{Kind, NoMemory, Ty, Value};

pub(crate) const NUMBER: Ty = Ty {
    kind: Kind::I64,
    nullable: true,
};

/// How many rows there are, as a square.
const SIDE: i64 = 1000;

/// The first seed of a table of chains.
const SEED: u64 = 0x9e37_79b9_7f4a_7c15;

/// What this seed's hashes begin with, before a number is mixed in.
const BEGIN: i64 = 0x4ade_4b93_1fcc_4cea;

/// The bits of a hash below those that choose among the buckets of a million rows.
const BELOW: u32 = 44;

/// What the keys are.
#[derive(Clone, Copy)]
pub(crate) enum Choice {
    /// A million numbers that stand in one bucket under the first seed. A number is mixed in by the 128 bits of a product, of
    /// which the upper half is added to the lower. The factors in these steps make both halves small.
    Colliding,
    /// The numbers from 0.
    InOrder,
    /// One number in each row.
    Equal,
}

/// A million rows of such keys.
pub(crate) fn million(alloc: Global, choice: Choice) -> Result<Batch, NoMemory>
    ensures { IfOk result (λ batch. types_of batch ≡ NUMBER ∷ []) }
{
    let column = numbers(alloc, choice)?;
    one_column(alloc, column)
}

fn numbers(alloc: Global, choice: Choice) -> Result<Column, NoMemory>
    ensures { IfOk result (λ column. column.ty ≡ NUMBER) }
{
    let mut builder = ColumnBuilder::new(alloc, NUMBER);
    for i in 0..SIDE {
        push_row(&mut builder, choice, i)?;
    }
    Ok(builder.finish())
}

// Adds the keys in a row of the square.
fn push_row(builder: &mut ColumnBuilder, choice: Choice, i: i64) -> Result<(), NoMemory>
    requires { builder.old.ty ≡ NUMBER }
    ensures { builder.new.ty ≡ builder.old.ty }
{
    for j in 0..SIDE {
        push_number(builder, number_of(choice, i, j))?;
    }
    Ok(())
}

fn push_number(builder: &mut ColumnBuilder, number: i64) -> Result<(), NoMemory>
    requires { builder.old.ty ≡ NUMBER }
    ensures { builder.new.ty ≡ builder.old.ty }
{
    builder.push(&Value::Int(number))
}

// The key in a row and a column of the square.
fn number_of(choice: Choice, i: i64, j: i64) -> i64 {
    match choice {
        Choice::Colliding => {
            let factor = (i.wrapping_add(1_700))
                .wrapping_mul(2_218_902_958)
                .wrapping_sub(j.wrapping_mul(3_552_569_583));
            BEGIN ^ factor
        }
        Choice::InOrder => i.wrapping_mul(SIDE).wrapping_add(j),
        Choice::Equal => 7,
    }
}

fn one_column(alloc: Global, column: Column) -> Result<Batch, NoMemory>
    ensures { IfOk result (λ batch. types_of batch ≡ column.ty ∷ []) }
{
    let rows = column.values.len();
    let mut columns = Vec::new(alloc);
    columns.push(column)?;
    Ok(Batch {
        number: 0,
        rows: rows as u64,
        columns,
    })
}

/// How many rows stand in the first bucket under the first seed.
pub(crate) fn in_first_bucket(alloc: Global, batch: &Batch) -> Result<u64, NoMemory>
    requires { types_of batch.now ≡ NUMBER ∷ [] }
{
    let hashes = hash_keys(alloc, batch, &[0], SEED)?;
    let mut count: u64 = 0;
    for hash in hashes {
        if hash >> BELOW == 0 {
            count = count.saturating_add(1);
        }
    }
    Ok(count)
}
