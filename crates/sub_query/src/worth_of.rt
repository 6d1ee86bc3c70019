// What subqueries are worth by their rows.
ghost use Rattle.std.specs.Prelude.{◌≡◌, ◌<◌, ◌++◌, [], map, slice_index_or, IfOk, OnOk, not};
ghost use Rattle.std.specs.List.{flat_map};
ghost use Rattle.batch.specs.BatchRows.{rows_of};
ghost use Rattle.plan_denote.specs.Rows.{fault_at, is_empty};
ghost use Rattle.sub_types.specs.declared.fault.FaultKind.TheVariants as faults;
ghost use Rattle.plan_denote.specs.Subqueries.{first_type, single, value_in, worth_of};
ghost use Rattle.plan_typed.specs.Types.{columns_of};
ghost use Rattle.sub_query.specs.Known.{found_seen};

use crate::Worth;
use batch::Batch;
use plan_leaves::Items;
use plan_typed::{Rel, Sub, SubKind};
use std::alloc::Global;
use sub_types::{Fault, FaultKind, Kind, NoMemory, Ty, Value};

/// What a subquery is worth by its rows: the value of the one row or null, the values of its column, or whether there is a row.
/// A scalar of more than one row is the fault `ManyRows` at the subquery's outermost relation.
pub fn worth_of_rows(
    alloc: Global,
    sub: &Sub,
    rows: &[Items<Value>],
) -> Result<Result<Worth, Fault>, NoMemory>
    ensures { IfOk result (λ found. found_seen found ≡ worth_of sub.now.rel sub.now.kind rows.now) }
{
    match sub.kind {
        SubKind::Scalar => scalar_of_rows(alloc, sub.rel.number, rows),
        SubKind::In => Ok(Ok(Worth::Among {
            column: column_type(&sub.rel),
            found: first_values(alloc, rows)?,
        })),
        SubKind::Exists => Ok(Ok(Worth::Single(Value::Bool(!rows.is_empty())))),
    }
}

/// The same by the rows of batches.
pub fn worth_of_batches(
    alloc: Global,
    sub: &Sub,
    batches: &[Batch],
) -> Result<Result<Worth, Fault>, NoMemory>
    ensures { IfOk result (λ found. found_seen found ≡ worth_of sub.now.rel sub.now.kind (flat_map rows_of batches.now)) }
{
    match sub.kind {
        SubKind::Scalar => scalar_of_batches(alloc, sub.rel.number, batches),
        SubKind::In => Ok(Ok(Worth::Among {
            column: column_type(&sub.rel),
            found: first_values_of_batches(alloc, batches)?,
        })),
        SubKind::Exists => Ok(Ok(Worth::Single(Value::Bool(has_row(batches))))),
    }
}

fn scalar_of_rows(
    alloc: Global,
    number: u32,
    rows: &[Items<Value>],
) -> Result<Result<Worth, Fault>, NoMemory>
    ensures { IfOk result (λ found. found_seen found ≡ single number rows.now) }
{
    if rows.len() > 1 {
        return Ok(Err(many_rows(number)));
    }
    match rows.first() {
        Some(row) => Ok(Ok(Worth::Single(first_value(alloc, row.as_slice())?))),
        None => Ok(Ok(Worth::Single(Value::Null))),
    }
}

fn scalar_of_batches(
    alloc: Global,
    number: u32,
    batches: &[Batch],
) -> Result<Result<Worth, Fault>, NoMemory>
    ensures { IfOk result (λ found. found_seen found ≡ single number (flat_map rows_of batches.now)) }
{
    let mut found = Value::Null;
    let mut is_found = false;
    for batch in batches {
        if batch.rows > 0 {
            if is_found || batch.rows > 1 {
                return Ok(Err(many_rows(number)));
            }
            found = first_at(alloc, batch, 0)?;
            is_found = true;
        }
    }
    Ok(Ok(Worth::Single(found)))
}

fn many_rows(number: u32) -> Fault
    ensures { result ≡ fault_at number faults.ManyRows }
{
    Fault {
        relation: number,
        kind: FaultKind::ManyRows,
    }
}

/// The first values of rows.
fn first_values(alloc: Global, rows: &[Items<Value>]) -> Result<Items<Value>, NoMemory>
    ensures { IfOk result (λ values. values ≡ map value_in rows.now) }
{
    let mut values = Vec::with_capacity(alloc, rows.len())?;
    for row in rows {
        values.push(first_value(alloc, row.as_slice())?)?;
    }
    Ok(Items::from_vec(values))
}

fn first_value(alloc: Global, row: &[Value]) -> Result<Value, NoMemory>
    ensures { IfOk result (λ value. value ≡ value_in row.now) }
{
    match row.first() {
        Some(value) => value.copy(alloc),
        None => Ok(Value::Null),
    }
}

fn first_values_of_batches(alloc: Global, batches: &[Batch]) -> Result<Items<Value>, NoMemory>
    ensures { IfOk result (λ values. values ≡ map value_in (flat_map rows_of batches.now)) }
{
    let mut values = Vec::new(alloc);
    for batch in batches {
        push_first_values(alloc, &mut values, batch)?;
    }
    Ok(Items::from_vec(values))
}

fn push_first_values(alloc: Global, values: &mut Vec<Value>, batch: &Batch) -> Result<(), NoMemory>
    ensures { OnOk result (values.new.items ≡ values.old.items ++ map value_in (rows_of batch.now)) }
{
    for row in 0..batch.rows {
        values.push(first_at(alloc, batch, row)?)?;
    }
    Ok(())
}

/// The first value of a row.
fn first_at(alloc: Global, batch: &Batch, row: u64) -> Result<Value, NoMemory>
    requires { row < batch.now.rows }
    ensures { IfOk result (λ value. value ≡ value_in (slice_index_or (rows_of batch.now) row [])) }
{
    if batch.columns.is_empty() {
        return Ok(Value::Null);
    }
    batch.value_at(alloc, 0, row)
}

fn has_row(batches: &[Batch]) -> bool
    ensures { result ≡ not (is_empty (flat_map rows_of batches.now)) }
{
    for batch in batches {
        if batch.rows > 0 {
            return true;
        }
    }
    false
}

/// The type of the first column.
fn column_type(rel: &Rel) -> Ty
    ensures { result ≡ first_type (columns_of rel.now) }
{
    match rel.columns.get(0) {
        Some(ty) => *ty,
        None => Ty {
            kind: Kind::Bool,
            nullable: true,
        },
    }
}
