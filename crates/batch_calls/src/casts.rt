//! A cast of a column.
ghost use Rattle.std.specs.Prelude.{◌≡◌, ◌<◌, ℕ, length, slice_index_or, IfOk};
ghost use Rattle.std.specs.List.{range_with_len};
ghost use Rattle.sub_types.specs.Kind.{IsKind};
ghost use Rattle.sub_types.specs.Value.{InKind};
ghost use Rattle.sub_types.specs.declared.value.Value.TheVariants.{Null};
ghost use Rattle.plan_denote.specs.Casts as spec;
ghost use Rattle.batch.specs.ColumnValues.{values_of};
ghost use Rattle.batch_nodes.specs.Found.{found_values};
ghost use Rattle.eval_values.specs.Gives.{Gives};
ghost use Rattle.kernels.specs.Until.{until};

use batch::{Column, ColumnBuilder};
use batch_nodes::Found;
use eval_values::{EvalError, cast};
use kernels::Stop;
use std::alloc::Global;
use sub_types::{Kind, NoMemory, Ty, Value};

/// The values of a kind as values of a type's, up to the first that can't be cast, and that fault with its place; null in its
/// stead where that is asked for.
pub fn cast_column(
    alloc: Global,
    null_on_fail: bool,
    from: Kind,
    ty: Ty,
    column: &Found<'_>,
) -> Result<(Column, Stop), NoMemory>
    requires valid_kind { IsKind ty.kind }
    requires in_kind { (i : ℕ) → i < length (found_values column.now) → IfOk (spec.or_null null_on_fail (spec.cast from ty.kind (slice_index_or (found_values column.now) i Null))) (λ value. InKind ty.kind value) }
    ensures values { IfOk result (λ out. values_of out.0.values ≡ (until (λ i. spec.or_null null_on_fail (spec.cast from ty.kind (slice_index_or (found_values column.now) i Null))) (range_with_len 0 (length (found_values column.now)))).values) }
    ensures stop { IfOk result (λ out. out.1 ≡ (until (λ i. spec.or_null null_on_fail (spec.cast from ty.kind (slice_index_or (found_values column.now) i Null))) (range_with_len 0 (length (found_values column.now)))).stop) }
    ensures ty { IfOk result (λ out. out.0.ty ≡ ty) }
{
    let mut built = ColumnBuilder::new(alloc, ty);
    for i in 0..column.len() {
        let value = column.value_at(alloc, i)?;
        match cast_or_null(alloc, null_on_fail, from, ty.kind, value) {
            Ok(value) => built.push(&value)?,
            Err(EvalError::Fault(kind)) => {
                return Ok((
                    built.finish(),
                    Stop::At {
                        row: i as u64,
                        kind,
                    },
                ));
            }
            Err(EvalError::NoMemory) => return Err(NoMemory),
        }
    }
    Ok((built.finish(), Stop::Never))
}

/// A cast, whose failure is null where that is asked for.
fn cast_or_null(
    alloc: Global,
    null_on_fail: bool,
    from: Kind,
    to: Kind,
    value: Value,
) -> Result<Value, EvalError>
    ensures { Gives result (spec.or_null null_on_fail (spec.cast from to value)) }
{
    match cast(alloc, from, to, value) {
        Err(EvalError::Fault(_)) if null_on_fail => Ok(Value::Null),
        found => found,
    }
}
