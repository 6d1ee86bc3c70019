// The rows of batches, and whether they are the same.
use batch::Batch;
use eval_values::is_same;
use plan_leaves::Items;
use std::alloc::Global;
use sub_types::{NoMemory, Value};

// Adds the rows of a batch.
pub(crate) fn push_rows(
    alloc: Global,
    batch: &Batch,
    rows: &mut Items<Items<Value>>,
) -> Result<(), NoMemory> {
    for row in 0..batch.rows {
        let mut values = Items::new(alloc);
        for column in 0..batch.columns.len() {
            values.push(batch.value_at(alloc, column, row)?)?;
        }
        rows.push(values)?;
    }
    Ok(())
}

// Whether two lists have the same rows in the same order.
pub(crate) fn are_same(rows: &[Items<Value>], others: &[Items<Value>]) -> bool {
    if rows.len() != others.len() {
        return false;
    }
    for i in 0..rows.len() {
        if !is_same_row(rows[i].as_slice(), others[i].as_slice()) {
            return false;
        }
    }
    true
}

fn is_same_row(row: &[Value], other: &[Value]) -> bool {
    if row.len() != other.len() {
        return false;
    }
    for i in 0..row.len() {
        if !is_same(&row[i], &other[i]) {
            return false;
        }
    }
    true
}
