// Batches of two columns of small numbers, some of them null.
ghost use Rattle.std.specs.Prelude.{◌≡◌, ◌<◌, ◌≤◌, ◌∷◌, [], All, IfOk};
ghost use Rattle.sub_types.specs.Nullable.{int_value};
ghost use Rattle.sub_types.specs.Value.{Fits};
ghost use Rattle.batch.specs.BatchRows.{rows_of, types_of};
ghost use Rattle.hash_join_tests.specs.Typed.{numbers};

use crate::conditions::RELATION;
use crate::random::Random;
use batch::{Batch, Column, ColumnBuilder};
use std::alloc::Global;
use sub_types::{Kind, NoMemory, Ty, Value};
use table_rows::check_batch;

/// A number, or none for a null.
pub(crate) type Number = Option<i64>;

pub(crate) const NUMBER: Ty = Ty {
    kind: Kind::I64,
    nullable: true,
};

/// The rows of a batch from one to another, up to the first that doesn't fit.
pub(crate) fn fitting(alloc: Global, batch: &Batch, from: u64, to: u64) -> Result<Batch, NoMemory>
    requires types { types_of batch.now ≡ numbers }
    requires rising { from ≤ to }
    requires within { to ≤ batch.now.rows }
    ensures types { IfOk result (λ part. types_of part ≡ numbers) }
    ensures fit { IfOk result (λ part. All (Fits numbers) (rows_of part)) }
{
    let rows = batch.slice(alloc, from, to)?;
    let tested = check_batch(alloc, RELATION, &[NUMBER, NUMBER], rows)?;
    Ok(tested.batch)
}

// Up to six rows.
pub(crate) fn random_batch(alloc: Global, random: &mut Random) -> Result<Batch, NoMemory>
    ensures { IfOk result (λ batch. types_of batch ≡ numbers) }
{
    let rows = random.below(7);
    let first = numbers(alloc, random, rows)?;
    let second = numbers(alloc, random, rows)?;
    batch_of(alloc, first, second)
}

// So many numbers from 0 to 2, and a null for one in four.
fn numbers(alloc: Global, random: &mut Random, rows: u64) -> Result<Column, NoMemory>
    ensures { IfOk result (λ column. column.ty ≡ NUMBER) }
{
    let mut builder = ColumnBuilder::new(alloc, NUMBER);
    for _ in 0..rows {
        let number = random.below(4) as i64;
        push_number(&mut builder, number)?;
    }
    Ok(builder.finish())
}

// Adds a number, and a null in place of 3.
fn push_number(builder: &mut ColumnBuilder, number: i64) -> Result<(), NoMemory>
    requires { builder.old.ty ≡ NUMBER }
    ensures { builder.new.ty ≡ builder.old.ty }
{
    if number == 3 {
        builder.push(&Value::Null)
    } else {
        builder.push(&Value::Int(number))
    }
}

// These rows.
pub(crate) fn batch_of_rows(alloc: Global, rows: &[[Number; 2]]) -> Result<Batch, NoMemory>
    ensures { IfOk result (λ batch. types_of batch ≡ numbers) }
{
    let first = column_of_rows(alloc, rows, 0)?;
    let second = column_of_rows(alloc, rows, 1)?;
    batch_of(alloc, first, second)
}

// One of the columns of these rows.
fn column_of_rows(alloc: Global, rows: &[[Number; 2]], place: usize) -> Result<Column, NoMemory>
    requires { place < 2 }
    ensures { IfOk result (λ column. column.ty ≡ NUMBER) }
{
    let mut builder = ColumnBuilder::new(alloc, NUMBER);
    for row in rows {
        push_value(&mut builder, row[place])?;
    }
    Ok(builder.finish())
}

fn push_value(builder: &mut ColumnBuilder, number: Number) -> Result<(), NoMemory>
    requires { builder.old.ty ≡ NUMBER }
    ensures { builder.new.ty ≡ builder.old.ty }
{
    match number {
        Some(number) => builder.push(&Value::Int(number)),
        None => builder.push(&Value::Null),
    }
}

/// A number or a null as a value.
pub(crate) fn value_of(number: Number) -> Value
    ensures { result ≡ int_value number }
{
    match number {
        Some(number) => Value::Int(number),
        None => Value::Null,
    }
}

// A batch of two columns, where they are as long as each other.
fn batch_of(alloc: Global, first: Column, second: Column) -> Result<Batch, NoMemory>
    ensures { IfOk result (λ batch. types_of batch ≡ first.ty ∷ second.ty ∷ []) }
{
    let rows = first.values.len();
    if second.values.len() != rows {
        return Err(NoMemory);
    }
    let mut columns = Vec::new(alloc);
    columns.push(first)?;
    columns.push(second)?;
    Ok(Batch {
        number: 0,
        rows: rows as u64,
        columns,
    })
}
