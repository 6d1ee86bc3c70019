// What a batch can be asked for: a value, a part, and rows at places.
ghost use Rattle.std.specs.Prelude.{◌≡◌, ◌-◌, ◌<◌, ◌≤◌, [], length, vec_len, slice_index_or, All, IfOk};
ghost use Rattle.std.specs.List.{slice_range};
ghost use Rattle.batch.specs.BatchRows.{columns_of, rows_of, types_of};
ghost use Rattle.sub_types.specs.Rows.{picked};
ghost use Rattle.sub_types.specs.declared.value.Value.TheVariants.{Null};

use crate::Batch;
use std::alloc::Global;
use sub_types::{NoMemory, Value};

impl Batch {
    /// The value of a row in a column.
    pub fn value_at(&self, alloc: Global, column: usize, row: u64) -> Result<Value, NoMemory>
        requires column_exists { column < vec_len self.now.columns }
        requires row_exists { row < self.now.rows }
        ensures of_row { IfOk result
            (λ value. value ≡ slice_index_or (slice_index_or (rows_of self.now) row []) column Null) }
        ensures of_column { IfOk result
            (λ value. value ≡ slice_index_or (slice_index_or (columns_of self.now) column []) row Null) }
    {
        let column = &self.columns[column];
        column.values.value_at(alloc, row as usize)
    }

    /// The rows from `from` to before `to`.
    pub fn slice(&self, alloc: Global, from: u64, to: u64) -> Result<Batch, NoMemory>
        requires rising { from ≤ to }
        requires within { to ≤ self.now.rows }
        ensures rows { IfOk result (λ batch. rows_of batch ≡ slice_range (rows_of self.now) from to) }
        ensures types { IfOk result (λ batch. types_of batch ≡ types_of self.now) }
        ensures number { IfOk result (λ batch. batch.number ≡ self.now.number) }
        ensures count { IfOk result (λ batch. batch.rows ≡ to - from) }
    {
        let mut columns = Vec::new(alloc);
        for column in &self.columns {
            columns.push(column.part(alloc, from as usize, to as usize)?)?;
        }
        Ok(Batch {
            number: self.number,
            rows: to - from,
            columns,
        })
    }

    /// The rows at these places, in this order.
    pub fn gather(&self, alloc: Global, at: &[u64]) -> Result<Batch, NoMemory>
        requires { All (λ i. i < self.now.rows) at.now }
        ensures rows { IfOk result (λ batch. rows_of batch ≡ picked [] at.now (rows_of self.now)) }
        ensures types { IfOk result (λ batch. types_of batch ≡ types_of self.now) }
        ensures number { IfOk result (λ batch. batch.number ≡ self.now.number) }
        ensures count { IfOk result (λ batch. batch.rows ≡ length at.now) }
    {
        let mut columns = Vec::new(alloc);
        for column in &self.columns {
            columns.push(column.gather(alloc, at)?)?;
        }
        Ok(Batch {
            number: self.number,
            rows: at.len() as u64,
            columns,
        })
    }
}
