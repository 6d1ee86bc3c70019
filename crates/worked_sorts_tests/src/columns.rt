// Columns and batches of worked rows.
ghost use Rattle.std.specs.Prelude.{◌≡◌, ◌∷◌, [], IfOk};
ghost use Rattle.batch.specs.BatchRows.{types_of};

use batch::{Batch, Column, ColumnBuilder};
use std::alloc::Global;
use sub_types::{ByteList, Kind, NoMemory, Ty, Value};

pub(crate) const NUMBER: Ty = Ty {
    kind: Kind::I64,
    nullable: true,
};

pub(crate) const BINARY: Ty = Ty {
    kind: Kind::Binary,
    nullable: true,
};

/// A column of these numbers.
pub(crate) fn numbers(alloc: Global, values: &[Option<i64>]) -> Result<Column, NoMemory>
    ensures { IfOk result (λ column. column.ty ≡ NUMBER) }
{
    let mut builder = ColumnBuilder::new(alloc, NUMBER);
    for value in values {
        push_number(&mut builder, *value)?;
    }
    Ok(builder.finish())
}

fn push_number(builder: &mut ColumnBuilder, number: Option<i64>) -> Result<(), NoMemory>
    requires { builder.old.ty ≡ NUMBER }
    ensures { builder.new.ty ≡ builder.old.ty }
{
    match number {
        Some(number) => builder.push(&Value::Int(number)),
        None => builder.push(&Value::Null),
    }
}

/// A column of one letter a row.
pub(crate) fn letters(alloc: Global, values: &[u8]) -> Result<Column, NoMemory>
    ensures { IfOk result (λ column. column.ty ≡ BINARY) }
{
    let mut builder = ColumnBuilder::new(alloc, BINARY);
    for value in values {
        push_letter(alloc, &mut builder, *value)?;
    }
    Ok(builder.finish())
}

fn push_letter(alloc: Global, builder: &mut ColumnBuilder, letter: u8) -> Result<(), NoMemory>
    requires { builder.old.ty ≡ BINARY }
    ensures { builder.new.ty ≡ builder.old.ty }
{
    builder.push(&Value::Bytes(ByteList::of(alloc, &[letter])?))
}

/// A batch of one column.
pub(crate) fn one_column(alloc: Global, column: Column) -> Result<Batch, NoMemory>
    ensures { IfOk result (λ batch. types_of batch ≡ column.ty ∷ []) }
{
    let rows = column.values.len() as u64;
    let mut columns = Vec::new(alloc);
    columns.push(column)?;
    Ok(Batch {
        number: 0,
        rows,
        columns,
    })
}

/// A batch of two columns, where they are as long as each other.
pub(crate) fn two_columns(alloc: Global, first: Column, second: Column) -> Result<Batch, NoMemory>
    ensures { IfOk result (λ batch. types_of batch ≡ first.ty ∷ second.ty ∷ []) }
{
    let rows = first.values.len();
    if second.values.len() != rows {
        return Err(NoMemory);
    }
    let mut columns = Vec::new(alloc);
    columns.push(first)?;
    columns.push(second)?;
    Ok(Batch {
        number: 0,
        rows: rows as u64,
        columns,
    })
}
