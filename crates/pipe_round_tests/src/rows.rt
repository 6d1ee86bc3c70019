// The rows of pieces up to the first fault, and whether they are the same.
use batch::{Batch, Piece};
use eval_values::is_same;
use plan_leaves::Items;
use std::alloc::Global;
use sub_types::{Fault, NoMemory, Value};

/// Rows and the fault behind them, if there is one.
#[derive(Drop)]
pub(crate) struct Rows {
    pub(crate) rows: Items<Items<Value>>,
    pub(crate) end: Option<Fault>,
}

impl Rows {
    /// Those of pieces, one after the other, up to the first fault.
    pub(crate) fn of(alloc: Global, pieces: &[Piece]) -> Result<Rows, NoMemory> {
        let mut rows = Items::new(alloc);
        for piece in pieces {
            push_rows(alloc, &piece.batch, &mut rows)?;
            if piece.end.is_some() {
                return Ok(Rows {
                    rows,
                    end: piece.end,
                });
            }
        }
        Ok(Rows { rows, end: None })
    }

    pub(crate) fn is_same(&self, other: &Rows) -> bool {
        self.end == other.end && are_same(self.rows.as_slice(), other.rows.as_slice())
    }
}

// Adds the rows of a batch.
fn push_rows(alloc: Global, batch: &Batch, rows: &mut Items<Items<Value>>) -> Result<(), NoMemory> {
    for row in 0..batch.rows {
        let mut values = Items::new(alloc);
        for column in 0..batch.columns.len() {
            values.push(batch.value_at(alloc, column, row)?)?;
        }
        rows.push(values)?;
    }
    Ok(())
}

// Whether two lists have the same rows in the same order.
fn are_same(rows: &[Items<Value>], others: &[Items<Value>]) -> bool {
    if rows.len() != others.len() {
        return false;
    }
    for i in 0..rows.len() {
        if !is_same_row(rows[i].as_slice(), others[i].as_slice()) {
            return false;
        }
    }
    true
}

fn is_same_row(row: &[Value], other: &[Value]) -> bool {
    if row.len() != other.len() {
        return false;
    }
    for i in 0..row.len() {
        if !is_same(&row[i], &other[i]) {
            return false;
        }
    }
    true
}
