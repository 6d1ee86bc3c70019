// Expressions behind the columns of rows.
ghost use Rattle.std.specs.Prelude.{◌≡◌, ◌<◌, ◌≤◌, ◌++◌, All, IfOk, length, map};
ghost use Rattle.std.specs.List.{range_with_len};
ghost use Rattle.sub_types.specs.Rows.{transpose};
ghost use Rattle.sub_types.specs.Value.{Fits};
ghost use Rattle.sub_types.specs.declared.value.Value.TheVariants.{Null};
ghost use Rattle.plan_typed.specs.Types.{ty_of};
ghost use Rattle.well_typed.specs.ExprTyped.{IsTypedOver};
ghost use Rattle.plan_denote.specs.Eval.{eval};
ghost use Rattle.plan_denote.specs.Project.{projected};
ghost use Rattle.batch.specs.BatchRows.{rows_of, stream_of_piece, types_of};
ghost use Rattle.batch.specs.Column.{column_type, column_values};
ghost use Rattle.batch.specs.ColumnValues.{values_of};
ghost use Rattle.batch_nodes.specs.Strict as strict;
ghost use Rattle.row_ops.specs.Behind.{AreBehind, first_shown};
ghost use Rattle.row_ops.specs.Kept.{shown};

use crate::stops::end_after;
use batch::{Batch, Column, Piece};
use eval_batch::eval_rows;
use kernels::{Rows, Stop};
use plan_typed::Expr;
use std::alloc::Global;
use sub_types::NoMemory;

/// The values of the expressions behind each row, up to the first row at which one of them has a fault, and there by the first that
/// has one: the fault is that of the relation of this number. The input's columns aren't copied, unless rows are left out.
pub fn project(
    alloc: Global,
    exprs: &[Expr],
    relation: u32,
    input: Piece,
) -> Result<Piece, NoMemory>
    requires typed { All (IsTypedOver (types_of input.batch)) exprs.now }
    requires fit { All (Fits (types_of input.batch)) (rows_of input.batch) }
    ensures stream { IfOk result (λ out. stream_of_piece out ≡ projected relation (map eval exprs.now) (stream_of_piece input)) }
    ensures types { IfOk result (λ out. types_of out.batch ≡ types_of input.batch ++ map ty_of exprs.now) }
    ensures number { IfOk result (λ out. out.batch.number ≡ input.batch.number) }
{
    let Piece { batch, end } = input;
    let made = made_of(alloc, exprs, &batch)?;
    let batch = widened(alloc, batch, made.columns, made.rows)?;
    Ok(Piece {
        batch,
        end: end_after(relation, made.stop, end),
    })
}

/// Columns of expressions at the rows before a stop: so many rows, which each column has at least.
#[derive(Drop)]
pub struct Made {
    pub columns: Vec<Column>,
    pub rows: usize,
    pub stop: Stop,
}

// The columns of the expressions at the rows before the first fault.
fn made_of(alloc: Global, exprs: &[Expr], batch: &Batch) -> Result<Made, NoMemory>
    requires typed { All (IsTypedOver (types_of batch.now)) exprs.now }
    requires fit { All (Fits (types_of batch.now)) (rows_of batch.now) }
    ensures { IfOk result (λ made. AreBehind exprs.now batch.now made) }
{
    let mut columns = Vec::with_capacity(alloc, exprs.len())?;
    let mut rows = batch.rows as usize;
    let mut stop = Stop::Never;
    for expr in exprs {
        let (found, its_stop) = eval_rows(alloc, expr, batch, &Rows::all(rows))?;
        rows = found.len();
        stop = earlier(its_stop, stop);
        columns.push(found.into_column(alloc, expr.ty())?)?;
    }
    Ok(Made {
        columns,
        rows,
        stop,
    })
}

// The later of two stops that were found one behind the other, which is the earlier row.
fn earlier(stop: Stop, first: Stop) -> Stop
    ensures { result ≡ strict.earlier stop first }
{
    match stop {
        Stop::Never => first,
        _ => stop,
    }
}

// The first rows of the batch, and these columns behind its own.
fn widened(alloc: Global, batch: Batch, more: Vec<Column>, rows: usize) -> Result<Batch, NoMemory>
    requires few { rows ≤ batch.rows }
    requires long { All (λ (column : Column). rows ≤ length (values_of column.values)) more.items }
    ensures rows { IfOk result (λ out. rows_of out ≡ transpose Null rows (map column_values batch.columns.items ++ map column_values more.items)) }
    ensures types { IfOk result (λ out. types_of out ≡ types_of batch ++ map column_type more.items) }
    ensures number { IfOk result (λ out. out.number ≡ batch.number) }
    ensures count { IfOk result (λ out. out.rows ≡ rows) }
{
    let Batch {
        number,
        rows: all,
        columns: given,
        ..
    } = batch;
    let mut columns = first_of_each(alloc, given, rows)?;
    let mut behind = first_of_each(alloc, more, rows)?;
    columns.append(&mut behind)?;
    Ok(Batch {
        number,
        rows: rows as u64,
        columns,
    })
}

// The first rows of each column.
fn first_of_each(alloc: Global, columns: Vec<Column>, rows: usize) -> Result<Vec<Column>, NoMemory>
    requires { All (λ (column : Column). rows ≤ length (values_of column.values)) columns.items }
    ensures { IfOk result (λ first. map shown first.items ≡ map (first_shown rows) columns.items) }
{
    let mut first = Vec::with_capacity(alloc, columns.len())?;
    for column in columns {
        first.push(first_rows(alloc, column, rows)?)?;
    }
    Ok(first)
}

// The first rows of a column; all of them aren't copied.
fn first_rows(alloc: Global, column: Column, rows: usize) -> Result<Column, NoMemory>
    requires { rows ≤ length (values_of column.values) }
    ensures { IfOk result (λ first. shown first ≡ first_shown rows column) }
{
    if column.values.len() == rows {
        return Ok(column);
    }
    column.part(alloc, 0, rows)
}
