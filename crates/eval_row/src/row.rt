// Where the value of a column comes from.
ghost use Rattle.std.specs.Prelude.{◌≡◌, [], List, IfOk, slice_index_or};
ghost use Rattle.batch.specs.BatchRows.{rows_of};
ghost use Rattle.sub_types.specs.declared.value.Value.{Value};
ghost use Rattle.sub_types.specs.declared.value.Value.TheVariants.{Null};

use batch::Batch;
use std::alloc::Global;
use sub_types::{NoMemory, Value};

/// A row, which has one value for each column.
pub trait RowValues {
    /// The values in order.
    ghost as_row: { Self → List Value };

    /// The value of a column, which is null where the row has no such column.
    fn value(&self, alloc: Global, index: u32) -> Result<Value, NoMemory>
        ensures { IfOk result (λ value. value ≡ slice_index_or (as_row self.now) index Null) };
}

/// A row as a list of values.
#[derive(Clone, Copy)]
pub struct PlainRow<'a> {
    values: &'a [Value],
}

impl<'a> PlainRow<'a> {
    /// The row of these values.
    pub fn new(values: &'a [Value]) -> PlainRow<'a>
        ensures { result.values.now ≡ values.now }
    {
        PlainRow { values }
    }
}

impl RowValues for PlainRow<'_> {
    ghost as_row = { λ one. one.values.now };

    fn value(&self, alloc: Global, index: u32) -> Result<Value, NoMemory> {
        match self.values.get(index as usize) {
            Some(value) => value.copy(alloc),
            None => Ok(Value::Null),
        }
    }
}

/// A row of a batch.
#[derive(Clone, Copy)]
pub struct BatchRow<'a> {
    batch: &'a Batch,
    row: u64,
}

impl<'a> BatchRow<'a> {
    /// The row at a place, which has no values where the batch has no such row.
    pub fn new(batch: &'a Batch, row: u64) -> BatchRow<'a>
        ensures batch { result.batch.now ≡ batch.now }
        ensures row { result.row ≡ row }
    {
        BatchRow { batch, row }
    }
}

impl RowValues for BatchRow<'_> {
    ghost as_row = { λ one. slice_index_or (rows_of one.batch.now) one.row [] };

    fn value(&self, alloc: Global, index: u32) -> Result<Value, NoMemory> {
        let column = index as usize;
        if self.row < self.batch.rows && column < self.batch.columns.len() {
            self.batch.value_at(alloc, column, self.row)
        } else {
            Ok(Value::Null)
        }
    }
}
