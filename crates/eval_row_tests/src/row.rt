// A row: an expression, and what it is worth.
use crate::names::fault_of;
use crate::reader::{Reader, constant_of};
use anyhow::{Context, Result};
use eval_row::{Cell, PlainRow, cell_at};
use std::alloc::Global;
use sub_types::Value;

/// What comes of the row's expression, where it isn't what the row says: over its constants, and over columns that hold
/// them.
pub(crate) fn first_differing(alloc: Global, line: &str) -> Result<Option<Cell>> {
    let (text, expected) = line.split_once(" = ").context("no row")?;
    let expected = cell_of(alloc, expected)?;
    for in_columns in [false, true] {
        let came = worth(alloc, text, in_columns)?;
        if !is_same(&came, &expected) {
            return Ok(Some(came));
        }
    }
    Ok(None)
}

/// What an expression is worth.
fn worth(alloc: Global, text: &str, in_columns: bool) -> Result<Cell> {
    let (expr, row) = Reader::new(alloc, in_columns).read(text)?;
    Ok(cell_at(alloc, &expr, &PlainRow::new(&row))?)
}

/// A constant, `null` or a fault.
fn cell_of(alloc: Global, text: &str) -> Result<Cell> {
    if text == "null" {
        return Ok(Cell::Value(Value::Null));
    }
    match fault_of(text) {
        Some(kind) => Ok(Cell::Fault(kind)),
        None => Ok(Cell::Value(constant_of(alloc, text)?.0)),
    }
}

pub(crate) fn is_same(a: &Cell, b: &Cell) -> bool {
    match (a, b) {
        (Cell::Value(Value::Null), Cell::Value(Value::Null)) => true,
        (Cell::Value(Value::Bool(a)), Cell::Value(Value::Bool(b))) => a == b,
        (Cell::Value(Value::Int(a)), Cell::Value(Value::Int(b))) => a == b,
        (Cell::Value(Value::Dec(a)), Cell::Value(Value::Dec(b))) => a == b,
        (Cell::Value(Value::Bytes(a)), Cell::Value(Value::Bytes(b))) => a.bytes() == b.bytes(),
        (Cell::Fault(a), Cell::Fault(b)) => a == b,
        _ => false,
    }
}
