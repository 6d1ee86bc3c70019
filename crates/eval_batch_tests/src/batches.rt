// Batches of two columns of numbers, some of them null, and selections of their rows.
ghost use Rattle.std.specs.Prelude.{◌≡◌, ◌<◌, ◌∷◌, [], All, IfOk};
ghost use Rattle.batch.specs.BatchRows.{types_of};

use batch::{Batch, Column, ColumnBuilder};
use col_fixed::BoolBuilder;
use kernels::{Selection, select};
use std::alloc::Global;
use sub_types::{Kind, NoMemory, Ty, Value};

pub(crate) const NUMBER: Ty = Ty {
    kind: Kind::I64,
    nullable: true,
};

// So many rows: small numbers, the second of which is often 0, and nulls in every combination.
pub(crate) fn mixed(alloc: Global, rows: u64) -> Result<Batch, NoMemory>
    ensures types { IfOk result (λ batch. types_of batch ≡ NUMBER ∷ NUMBER ∷ []) }
    ensures rows { IfOk result (λ batch. batch.rows ≡ rows) }
{
    let first = numbers(alloc, rows, 7, 200)?;
    let second = numbers(alloc, rows, 5, 3)?;
    batch_of(alloc, rows, first, second)
}

// So many numbers below an end, in turn, and a null at the fourth of each so many rows.
fn numbers(alloc: Global, rows: u64, nulls: u64, end: u64) -> Result<Column, NoMemory>
    requires nulls { 0 < nulls }
    requires end { (0 < end) × (end < 1000) }
    ensures { IfOk result (λ column. column.ty ≡ NUMBER) }
{
    let mut builder = ColumnBuilder::new(alloc, NUMBER);
    for row in 0..rows {
        let number = (row % end) as i64;
        push_number(&mut builder, row % nulls == 3, number)?;
    }
    Ok(builder.finish())
}

// Two rows.
pub(crate) fn two_rows(alloc: Global, one: (i64, i64), two: (i64, i64)) -> Result<Batch, NoMemory>
    ensures types { IfOk result (λ batch. types_of batch ≡ NUMBER ∷ NUMBER ∷ []) }
    ensures rows { IfOk result (λ batch. batch.rows ≡ 2) }
{
    let first = two_numbers(alloc, one.0, two.0)?;
    let second = two_numbers(alloc, one.1, two.1)?;
    batch_of(alloc, 2, first, second)
}

fn two_numbers(alloc: Global, one: i64, two: i64) -> Result<Column, NoMemory>
    ensures { IfOk result (λ column. column.ty ≡ NUMBER) }
{
    let mut builder = ColumnBuilder::new(alloc, NUMBER);
    push_number(&mut builder, false, one)?;
    push_number(&mut builder, false, two)?;
    Ok(builder.finish())
}

// Adds a number, or a null.
fn push_number(builder: &mut ColumnBuilder, null: bool, number: i64) -> Result<(), NoMemory>
    requires { builder.old.ty ≡ NUMBER }
    ensures { builder.new.ty ≡ builder.old.ty }
{
    if null {
        builder.push(&Value::Null)
    } else {
        builder.push(&Value::Int(number))
    }
}

// A batch of two columns, where both have so many values.
fn batch_of(alloc: Global, rows: u64, first: Column, second: Column) -> Result<Batch, NoMemory>
    ensures types { IfOk result (λ batch. types_of batch ≡ first.ty ∷ second.ty ∷ []) }
    ensures rows { IfOk result (λ batch. batch.rows ≡ rows) }
{
    let count = rows as usize;
    if first.values.len() != count || second.values.len() != count {
        return Err(NoMemory);
    }
    let mut columns = Vec::new(alloc);
    columns.push(first)?;
    columns.push(second)?;
    Ok(Batch {
        number: 0,
        rows,
        columns,
    })
}

// Every `step`th of so many rows, from the first on.
pub(crate) fn every(alloc: Global, rows: u64, step: u64) -> Result<Selection, NoMemory>
    requires { 0 < step }
    ensures { IfOk result (λ on. All (λ row. row < rows) on.rows.items) }
{
    let mut taken = BoolBuilder::new(alloc);
    for row in 0..rows {
        taken.push(Some(row % step == 0))?;
    }
    let taken = taken.finish();
    let on = select(alloc, &taken)?;
    Ok(on)
}
