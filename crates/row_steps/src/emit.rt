// The columns that a relation emits.
ghost use Rattle.sub_types.specs.declared.value.Value.TheVariants.{Null};
ghost use Rattle.std.specs.Prelude.{◌≡◌, IfOk, slice_index_or};
ghost use Rattle.plan_denote.specs.Project as spec;
ghost use Rattle.row_steps.specs.Seen.{seen};

use crate::lists::map_of;
use crate::stream::{RowStream, Stream};
use plan_leaves::Items;
use std::alloc::Global;
use sub_types::{NoMemory, Value};

/// Each row's values in these columns.
pub fn emitted(alloc: Global, columns: &[u32], input: RowStream) -> Result<RowStream, NoMemory>
    ensures { IfOk result (λ s. seen s ≡ spec.emitted columns.now (seen input)) }
{
    let Stream { rows, end } = input;
    let rows = map_of(
        alloc,
        rows.as_slice(),
        |row| columns_at(alloc, columns, row.as_slice()),
    )?;
    Ok(Stream { rows, end })
}

/// The values in these columns, in this order.
pub fn columns_at(alloc: Global, columns: &[u32], row: &[Value]) -> Result<Items<Value>, NoMemory>
    ensures { IfOk result (λ values. values ≡ spec.columns_at columns.now row.now) }
{
    map_of(
        alloc,
        columns,
        |column| value_at(alloc, row, *column as usize),
    )
}

/// The value in a column, null where the row has no such column.
pub fn value_at(alloc: Global, row: &[Value], column: usize) -> Result<Value, NoMemory>
    ensures { IfOk result (λ value. value ≡ slice_index_or row.now column Null) }
{
    match row.get(column) {
        Some(value) => value.copy(alloc),
        None => Ok(Value::Null),
    }
}
