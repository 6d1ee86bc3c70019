// Batches of a column of numbers and one of binary values.
ghost use Rattle.std.specs.Prelude.{◌≡◌, ◌∷◌, [], IfOk};
ghost use Rattle.batch.specs.BatchRows.{types_of};

use batch::{Batch, Column, ColumnBuilder};
use std::alloc::Global;
use sub_types::{ByteList, Kind, NoMemory, Ty, Value};

pub(crate) const NUMBER: Ty = Ty {
    kind: Kind::I64,
    nullable: true,
};

pub(crate) const BINARY: Ty = Ty {
    kind: Kind::Binary,
    nullable: true,
};

// The numbers of a column, and null where there is none.
pub(crate) fn numbers(alloc: Global, list: &[Option<i64>]) -> Result<Column, NoMemory>
    ensures { IfOk result (λ column. column.ty ≡ NUMBER) }
{
    let mut builder = ColumnBuilder::new(alloc, NUMBER);
    for number in list {
        push_number(&mut builder, *number)?;
    }
    Ok(builder.finish())
}

fn push_number(builder: &mut ColumnBuilder, number: Option<i64>) -> Result<(), NoMemory>
    requires { builder.old.ty ≡ NUMBER }
    ensures { builder.new.ty ≡ builder.old.ty }
{
    match number {
        Some(number) => builder.push(&Value::Int(number)),
        None => builder.push(&Value::Null),
    }
}

// The binary values of a column, and null where there is none.
pub(crate) fn binaries(alloc: Global, list: &[Option<&[u8]>]) -> Result<Column, NoMemory>
    ensures { IfOk result (λ column. column.ty ≡ BINARY) }
{
    let mut builder = ColumnBuilder::new(alloc, BINARY);
    for bytes in list {
        push_binary(alloc, &mut builder, *bytes)?;
    }
    Ok(builder.finish())
}

fn push_binary(
    alloc: Global,
    builder: &mut ColumnBuilder,
    bytes: Option<&[u8]>,
) -> Result<(), NoMemory>
    requires { builder.old.ty ≡ BINARY }
    ensures { builder.new.ty ≡ builder.old.ty }
{
    match bytes {
        Some(bytes) => builder.push(&Value::Bytes(ByteList::of(alloc, bytes)?)),
        None => builder.push(&Value::Null),
    }
}

// A batch of two columns, where they are as long as each other.
pub(crate) fn batch_of(alloc: Global, first: Column, second: Column) -> Result<Batch, NoMemory>
    ensures { IfOk result (λ batch. types_of batch ≡ first.ty ∷ second.ty ∷ []) }
{
    let rows = first.values.len();
    if second.values.len() != rows {
        return Err(NoMemory);
    }
    let mut columns = Vec::new(alloc);
    columns.push(first)?;
    columns.push(second)?;
    Ok(Batch {
        number: 0,
        rows: rows as u64,
        columns,
    })
}

// The rows (4, "ab"), nulls, (4, "ab"), (-1, null) and (4, "").
pub(crate) fn five_rows(alloc: Global) -> Result<Batch, NoMemory>
    ensures { IfOk result (λ batch. types_of batch ≡ NUMBER ∷ BINARY ∷ []) }
{
    let first = numbers(alloc, &[Some(4), None, Some(4), Some(-1), Some(4)])?;
    let second = binaries(alloc, &[Some(b"ab"), None, Some(b"ab"), None, Some(b"")])?;
    batch_of(alloc, first, second)
}

// The same columns the other way round: ("ab", 4), (null, -1), (null, null) and ("abc", 4).
pub(crate) fn four_turned(alloc: Global) -> Result<Batch, NoMemory>
    ensures { IfOk result (λ batch. types_of batch ≡ BINARY ∷ NUMBER ∷ []) }
{
    let first = binaries(alloc, &[Some(b"ab"), None, None, Some(b"abc")])?;
    let second = numbers(alloc, &[Some(4), Some(-1), None, Some(4)])?;
    batch_of(alloc, first, second)
}
