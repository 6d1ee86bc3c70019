// Random rows, for both engines.
ghost use Rattle.std.specs.Prelude.{◌≡◌, ◌≤◌, ◌∷◌, [], true, length, IfOk};
ghost use Rattle.batch.specs.BatchRows.{types_of};

use crate::random::Random;
use batch::{Batch, Column, ColumnBuilder};
use eval_values::is_same;
use plan_leaves::Items;
use std::alloc::Global;
use sub_types::{ByteList, Kind, NoMemory, Ty, Value};

/// A row: a number and a binary, both of few and maybe null. By the one that isn't a key rows with equal keys are told apart.
#[derive(Clone, Copy)]
pub(crate) struct DrawnRow {
    number: Option<i64>,
    text: Option<u8>,
}

pub(crate) const NUMBER: Ty = Ty {
    kind: Kind::I64,
    nullable: true,
};

pub(crate) const BINARY: Ty = Ty {
    kind: Kind::Binary,
    nullable: true,
};

impl DrawnRow {
    fn draw(random: &mut Random) -> DrawnRow {
        let number = if random.below(5) == 0 {
            None
        } else {
            Some(random.below(7) as i64 - 3)
        };
        let text = if random.below(5) == 0 {
            None
        } else {
            Some(random.below(4) as u8 + b'a')
        };
        DrawnRow { number, text }
    }

    /// The row as the row engine has it.
    fn values(&self, alloc: Global) -> Result<Items<Value>, NoMemory> {
        let mut values = Items::new(alloc);
        values.push(number_value(self.number))?;
        values.push(text_value(alloc, self.text)?)?;
        Ok(values)
    }
}

fn number_value(number: Option<i64>) -> Value {
    match number {
        Some(number) => Value::Int(number),
        None => Value::Null,
    }
}

fn text_value(alloc: Global, text: Option<u8>) -> Result<Value, NoMemory> {
    match text {
        Some(letter) => Ok(Value::Bytes(ByteList::of(alloc, &[letter])?)),
        None => Ok(Value::Null),
    }
}

/// So many rows.
pub(crate) fn draw_rows(
    alloc: Global,
    random: &mut Random,
    count: u64,
) -> Result<Vec<DrawnRow>, NoMemory> {
    let mut rows = Vec::new(alloc);
    for _ in 0..count {
        rows.push(DrawnRow::draw(random))?;
    }
    Ok(rows)
}

/// Rows as the row engine has them.
pub(crate) fn row_list(alloc: Global, rows: &[DrawnRow]) -> Result<Items<Items<Value>>, NoMemory> {
    let mut list = Items::new(alloc);
    for row in rows {
        list.push(row.values(alloc)?)?;
    }
    Ok(list)
}

/// Rows as a batch.
pub(crate) fn batch_of(alloc: Global, rows: &[DrawnRow]) -> Result<Batch, NoMemory>
    ensures { IfOk result (λ batch. types_of batch ≡ NUMBER ∷ BINARY ∷ []) }
{
    let numbers = number_column(alloc, rows)?;
    let texts = text_column(alloc, rows)?;
    two_columns(alloc, numbers, texts)
}

// A batch of two columns, where they are as long as each other.
fn two_columns(alloc: Global, first: Column, second: Column) -> Result<Batch, NoMemory>
    ensures { IfOk result (λ batch. types_of batch ≡ first.ty ∷ second.ty ∷ []) }
{
    let rows = first.values.len();
    if second.values.len() != rows {
        return Err(NoMemory);
    }
    let mut columns = Vec::new(alloc);
    columns.push(first)?;
    columns.push(second)?;
    Ok(Batch {
        number: 0,
        rows: rows as u64,
        columns,
    })
}

fn number_column(alloc: Global, rows: &[DrawnRow]) -> Result<Column, NoMemory>
    ensures { IfOk result (λ column. column.ty ≡ NUMBER) }
{
    let mut builder = ColumnBuilder::new(alloc, NUMBER);
    for row in rows {
        push_number(&mut builder, row.number)?;
    }
    Ok(builder.finish())
}

fn push_number(builder: &mut ColumnBuilder, number: Option<i64>) -> Result<(), NoMemory>
    requires { builder.old.ty ≡ NUMBER }
    ensures { builder.new.ty ≡ builder.old.ty }
{
    match number {
        Some(number) => builder.push(&Value::Int(number)),
        None => builder.push(&Value::Null),
    }
}

fn text_column(alloc: Global, rows: &[DrawnRow]) -> Result<Column, NoMemory>
    ensures { IfOk result (λ column. column.ty ≡ BINARY) }
{
    let mut builder = ColumnBuilder::new(alloc, BINARY);
    for row in rows {
        push_text(alloc, &mut builder, row.text)?;
    }
    Ok(builder.finish())
}

fn push_text(alloc: Global, builder: &mut ColumnBuilder, text: Option<u8>) -> Result<(), NoMemory>
    requires { builder.old.ty ≡ BINARY }
    ensures { builder.new.ty ≡ builder.old.ty }
{
    match text {
        Some(letter) => builder.push(&Value::Bytes(ByteList::of(alloc, &[letter])?)),
        None => builder.push(&Value::Null),
    }
}

/// Whether batches hold these rows, in this order.
pub(crate) fn are_rows(
    alloc: Global,
    batches: &[Batch],
    rows: &[Items<Value>],
) -> Result<bool, NoMemory> {
    let mut at = 0;
    for batch in batches {
        if !begins_with(alloc, &rows[at..], batch)? {
            return Ok(false);
        }
        at += batch.rows as usize;
    }
    Ok(at == rows.len())
}

/// Whether rows begin with those of a batch.
pub(crate) fn begins_with(
    alloc: Global,
    rows: &[Items<Value>],
    batch: &Batch,
) -> Result<bool, NoMemory>
    ensures { IfOk result (λ holds. holds ≡ true → batch.now.rows ≤ length rows.now) }
{
    if batch.rows > rows.len() as u64 {
        return Ok(false);
    }
    for row in 0..batch.rows {
        if !is_row(alloc, batch, row, rows[row as usize].as_slice())? {
            return Ok(false);
        }
    }
    Ok(true)
}

fn is_row(alloc: Global, batch: &Batch, row: u64, expected: &[Value]) -> Result<bool, NoMemory> {
    if row >= batch.rows || batch.columns.len() != expected.len() {
        return Ok(false);
    }
    for column in 0..expected.len() {
        let value = batch.value_at(alloc, column, row)?;
        if !is_same(&value, &expected[column]) {
            return Ok(false);
        }
    }
    Ok(true)
}
