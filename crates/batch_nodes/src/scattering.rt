//! The values of rows from those of the expressions that they choose.
ghost use Rattle.std.specs.Prelude.{◌≡◌, ◌<◌, ◌≤◌, length, vec_len, All, IfOk};
ghost use Rattle.sub_types.specs.Kind.{IsKind};
ghost use Rattle.batch.specs.ColumnValues.{values_of};
ghost use Rattle.batch_nodes.specs.Chosen.{scattered};
ghost use Rattle.batch_nodes.specs.Found as found;

use crate::Found;
use batch::{Column, ColumnBuilder};
use kernels::{Rows, Stop};
use std::alloc::Global;
use sub_types::{NoMemory, Ty};

/// Each row's value is the next of the column that it chooses, up to the first row at which that is missing, and the stop there.
pub fn scatter(
    alloc: Global,
    ty: Ty,
    rows: &Rows<'_>,
    choices: &[usize],
    stop: Stop,
    columns: &[(Found<'_>, Stop)],
) -> Result<(Column, Stop), NoMemory>
    requires valid_kind { IsKind ty.kind }
    requires kinds { All (λ column. found.IsOfKind ty.kind column.0) columns.now }
    requires chosen { All (λ choice. choice < length columns.now) choices.now }
    requires long { length choices.now ≤ length rows.now }
    ensures values { IfOk result (λ out. values_of out.0.values ≡ (scattered (found.found_at columns.now) rows.now choices.now stop).values) }
    ensures stop { IfOk result (λ out. out.1 ≡ (scattered (found.found_at columns.now) rows.now choices.now stop).stop) }
    ensures ty { IfOk result (λ out. out.0.ty ≡ ty) }
{
    let mut built = ColumnBuilder::new(alloc, ty);
    let mut next = vec![in alloc; 0; columns.len()]?;
    for i in 0..choices.len() {
        let choice = choices[i];
        let used = next[choice];
        let column = &columns[choice];
        if used >= column.0.len() {
            return Ok((built.finish(), column.1));
        }
        let value = column.0.value_at(alloc, used)?;
        built.push(&value)?;
        next[choice] = used + 1;
    }
    Ok((built.finish(), stop))
}
