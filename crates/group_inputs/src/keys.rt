// The columns of keys.
ghost use Rattle.std.specs.Prelude.{◌≡◌, ◌≤◌, length, All, IfOk};
ghost use Rattle.std.specs.List.{range_with_len};
ghost use Rattle.sub_types.specs.Value.{Fits};
ghost use Rattle.well_typed.specs.ExprTyped.{IsTypedOver};
ghost use Rattle.batch.specs.BatchRows.{rows_of, types_of};
ghost use Rattle.group_inputs.specs.Inputs.{AreKeyColumns};

use crate::before::{Before, values_before};
use batch::{Batch, Column};
use plan_typed::Expr;
use std::alloc::Global;
use sub_types::NoMemory;

/// The columns of the grouping expressions at the first rows.
pub(crate) fn key_columns(
    alloc: Global,
    groups: &[Expr],
    batch: &Batch,
    before: Before,
) -> Result<(Vec<Column>, Before), NoMemory>
    requires few { before.rows ≤ batch.now.rows }
    requires typed { All (IsTypedOver (types_of batch.now)) groups.now }
    requires fit { All (Fits (types_of batch.now)) (rows_of batch.now) }
    ensures { IfOk result (λ out. AreKeyColumns groups.now batch.now before out.0.items out.1) }
{
    let mut columns = Vec::new(alloc);
    let mut state = before;
    for group in groups {
        let (column, after) = values_before(alloc, group, batch, state)?;
        columns.push(column)?;
        state = after;
    }
    Ok((columns, state))
}

/// The places of so many columns.
pub(crate) fn places(alloc: Global, columns: usize) -> Result<Vec<u32>, NoMemory>
    ensures { IfOk result (λ places. places.items ≡ range_with_len 0 columns) }
{
    // No memory holds so many columns.
    let Ok(columns) = u32::try_from(columns) else {
        return Err(NoMemory);
    };
    let mut places = Vec::new(alloc);
    for place in 0..columns {
        places.push(place)?;
    }
    Ok(places)
}
