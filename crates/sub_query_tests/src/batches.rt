// Batches of one column of numbers.
ghost use Rattle.std.specs.Prelude.{◌≡◌};

use crate::trees::{NUMBER, one, with};
use batch::{Batch, Column, ColumnBuilder};
use plan_leaves::Items;
use std::alloc::Global;
use sub_types::{NoMemory, Value};

/// A batch with no row, and one of these numbers.
pub(crate) fn two_batches(alloc: Global, list: &[i64]) -> Result<Items<Batch>, NoMemory> {
    with(one(alloc, numbers(alloc, &[])), numbers(alloc, list))
}

fn numbers(alloc: Global, list: &[i64]) -> Result<Batch, NoMemory> {
    let mut builder = ColumnBuilder::new(alloc, NUMBER);
    for number in list {
        push_number(&mut builder, *number)?;
    }
    batch_of(alloc, builder.finish())
}

fn batch_of(alloc: Global, column: Column) -> Result<Batch, NoMemory> {
    let rows = column.values.len() as u64;
    let mut columns = Vec::new(alloc);
    columns.push(column)?;
    Ok(Batch {
        number: 0,
        rows,
        columns,
    })
}

fn push_number(builder: &mut ColumnBuilder, number: i64) -> Result<(), NoMemory>
    requires { builder.old.ty ≡ NUMBER }
    ensures { builder.new.ty ≡ builder.old.ty }
{
    builder.push(&Value::Int(number))
}
