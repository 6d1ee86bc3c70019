// The rows of a batch.
use crate::row::is_same;
use anyhow::Result;
use batch::{Batch, Column, ColumnBuilder};
use eval_row::{Cell, eval_row};
use plan_typed::Expr;
use std::alloc::Global;
use sub_types::{Kind, NoMemory, Ty, Value};

const NUMBER: Ty = Ty {
    kind: Kind::I64,
    nullable: true,
};

/// Whether a column of 5 and null has these at its rows, and null behind them.
pub(crate) fn are_of_batch(alloc: Global) -> Result<bool> {
    let batch = batch_of(alloc, numbers(alloc)?)?;
    let column = Expr::Column {
        index: 0,
        ty: NUMBER,
    };
    for (row, value) in [Value::Int(5), Value::Null, Value::Null]
        .into_iter()
        .enumerate()
    {
        let came = eval_row(alloc, &column, &batch, row as u64)?;
        if !is_same(&came, &Cell::Value(value)) {
            return Ok(false);
        }
    }
    Ok(true)
}

fn numbers(alloc: Global) -> Result<Column, NoMemory> {
    let mut builder = ColumnBuilder::new(alloc, NUMBER);
    builder.push(&Value::Int(5))?;
    builder.push(&Value::Null)?;
    Ok(builder.finish())
}

fn batch_of(alloc: Global, column: Column) -> Result<Batch, NoMemory> {
    let rows = column.values.len() as u64;
    let mut columns = Vec::new(alloc);
    columns.push(column)?;
    Ok(Batch {
        number: 0,
        rows,
        columns,
    })
}
