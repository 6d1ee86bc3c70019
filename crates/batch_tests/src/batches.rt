// Batches.
ghost use Rattle.std.specs.Prelude.{◌≡◌, ◌∷◌, [], true, IfOk};
ghost use Rattle.batch.specs.BatchRows.{types_of};

use crate::places::are_below;
use batch::{Batch, Column, ColumnBuilder, join_batches};
use std::alloc::Global;
use sub_types::{Kind, NoMemory, Ty, Value};

const NUMBER: Ty = Ty {
    kind: Kind::I64,
    nullable: true,
};

// Whether the row of the one column has this number.
fn has_number(alloc: Global, batch: &Batch, row: u64, want: Option<i64>) -> bool {
    if batch.columns.is_empty() || row >= batch.rows {
        return false;
    }
    match batch.value_at(alloc, 0, row) {
        Ok(Value::Int(number)) => want == Some(number),
        Ok(Value::Null) => want.is_none(),
        _ => false,
    }
}

// Whether these are the numbers of the one column.
fn are(alloc: Global, batch: &Batch, list: &[Option<i64>]) -> bool {
    if batch.rows != list.len() as u64 {
        return false;
    }
    for (row, want) in list.iter().enumerate() {
        if !has_number(alloc, batch, row as u64, *want) {
            return false;
        }
    }
    true
}

fn batch_of(alloc: Global, number: u64, column: Column) -> Result<Batch, NoMemory>
    ensures { IfOk result (λ batch. types_of batch ≡ column.ty ∷ []) }
{
    let rows = column.values.len() as u64;
    let mut columns = Vec::new(alloc);
    columns.push(column)?;
    Ok(Batch {
        number,
        rows,
        columns,
    })
}

fn push_number(builder: &mut ColumnBuilder, number: Option<i64>) -> Result<(), NoMemory>
    requires { builder.old.ty ≡ NUMBER }
    ensures { builder.new.ty ≡ builder.old.ty }
{
    match number {
        Some(number) => builder.push(&Value::Int(number)),
        None => builder.push(&Value::Null),
    }
}

fn push_numbers(builder: &mut ColumnBuilder, list: &[Option<i64>]) -> Result<(), NoMemory>
    requires { builder.old.ty ≡ NUMBER }
    ensures { builder.new.ty ≡ builder.old.ty }
{
    for number in list {
        push_number(builder, *number)?;
    }
    Ok(())
}

// A batch of one column of these numbers. Its number is 7.
fn numbers(alloc: Global, list: &[Option<i64>]) -> Result<Batch, NoMemory>
    ensures { IfOk result (λ batch. types_of batch ≡ NUMBER ∷ []) }
{
    let mut builder = ColumnBuilder::new(alloc, NUMBER);
    push_numbers(&mut builder, list)?;
    batch_of(alloc, 7, builder.finish())
}

// A part, as far as it is there.
fn part_of(alloc: Global, batch: &Batch, from: u64, to: u64) -> Result<Batch, NoMemory>
    ensures { IfOk result (λ part. types_of part ≡ types_of batch.now) }
{
    let to = to.min(batch.rows);
    batch.slice(alloc, from.min(to), to)
}

// Whether the part has these numbers, and the batch's number.
fn has_part(alloc: Global, batch: &Batch, from: u64, to: u64, list: &[Option<i64>]) -> bool {
    match part_of(alloc, batch, from, to) {
        Ok(part) => part.number == 7 && are(alloc, &part, list),
        Err(_) => false,
    }
}

// Whether the rows at these places have those numbers, and the batch's number.
fn gathers(alloc: Global, batch: &Batch, at: &[u64], list: &[Option<i64>]) -> bool {
    if !are_below(at, batch.rows) {
        return false;
    }
    match batch.gather(alloc, at) {
        Ok(picked) => picked.number == 7 && are(alloc, &picked, list),
        Err(_) => false,
    }
}

#[test]
fn slice_and_gather(rt: HostRuntime) {
    let alloc = rt.alloc();
    let holds = match numbers(alloc, &[Some(4), None, Some(6)]) {
        Ok(batch) => has_part(alloc, &batch, 1, 3, &[None, Some(6)])
            && has_part(alloc, &batch, 3, 3, &[])
            && gathers(
                alloc,
                &batch,
                &[2, 0, 1, 0],
                &[Some(6), Some(4), None, Some(4)],
            ),
        Err(_) => false,
    };
    assert!(rt; holds);
}

// Whether the batches joined have these numbers, and the number 0.
fn is_joined(alloc: Global, joined: Result<Batch, NoMemory>, list: &[Option<i64>]) -> bool {
    match joined {
        Ok(joined) => joined.number == 0 && are(alloc, &joined, list),
        Err(_) => false,
    }
}

fn join_none(alloc: Global) -> Result<Batch, NoMemory> {
    join_batches(alloc, &[NUMBER], &[])
}

// The batch alone, where it has few rows.
fn join_one(alloc: Global, a: Batch) -> Result<Batch, NoMemory>
    requires { types_of a ≡ NUMBER ∷ [] }
{
    if a.rows >= 100 {
        return Err(NoMemory);
    }
    join_batches(alloc, &[NUMBER], &[a])
}

// The batches joined, where they have few rows.
fn join_three(alloc: Global, a: Batch, b: Batch, c: Batch) -> Result<Batch, NoMemory>
    requires first { types_of a ≡ NUMBER ∷ [] }
    requires second { types_of b ≡ NUMBER ∷ [] }
    requires third { types_of c ≡ NUMBER ∷ [] }
{
    if a.rows >= 100 || b.rows >= 100 || c.rows >= 100 {
        return Err(NoMemory);
    }
    join_batches(alloc, &[NUMBER], &[a, b, c])
}

// No rows of a batch, its last row, and all of it.
fn join_parts(alloc: Global) -> Result<Batch, NoMemory> {
    let batch = numbers(alloc, &[Some(4), None, Some(6)])?;
    let none = part_of(alloc, &batch, 1, 1)?;
    let last = part_of(alloc, &batch, 2, 3)?;
    join_three(alloc, none, last, batch)
}

fn join_whole(alloc: Global) -> Result<Batch, NoMemory> {
    join_one(alloc, numbers(alloc, &[None, Some(1), None])?)
}

#[test]
fn join_of_nothing_of_one_and_of_parts(rt: HostRuntime) {
    let alloc = rt.alloc();
    assert!(rt; is_joined(alloc, join_none(alloc), &[]));
    assert!(rt; is_joined(alloc, join_whole(alloc), &[None, Some(1), None]));
    let parts = [Some(6), Some(4), None, Some(6)];
    assert!(rt; is_joined(alloc, join_parts(alloc), &parts));
}
