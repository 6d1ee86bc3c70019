//! The values of a call that ends early, put together from those of its first argument and of the rest.
ghost use Rattle.std.specs.Prelude.{◌≡◌, ◌≤◌, length, Ok, IfOk};
ghost use Rattle.sub_types.specs.Kind.{IsKind};
ghost use Rattle.plan_denote.specs.Logic as logic;
ghost use Rattle.batch.specs.ColumnValues.{values_of};
ghost use Rattle.batch_nodes.specs.Early as spec;
ghost use Rattle.batch_nodes.specs.Found as found;
ghost use Rattle.batch_nodes.specs.Narrowed.{joined};

use crate::Found;
use crate::early::{Early, settles, three_valued};
use batch::{Column, ColumnBuilder};
use kernels::{Rows, Stop};
use std::alloc::Global;
use sub_types::{NoMemory, Ty, Value};

/// The values of both at these rows up to the first at which one is missing, and the stop there.
pub fn join(
    alloc: Global,
    early: Early,
    ty: Ty,
    rows: &Rows<'_>,
    first: &Column,
    first_stop: Stop,
    rest: &Found<'_>,
    rest_stop: Stop,
) -> Result<(Column, Stop), NoMemory>
    requires valid_kind { IsKind ty.kind }
    requires kind { spec.IsOfKind early ty.kind }
    requires first { first.now.ty.kind ≡ ty.kind }
    requires rest { found.IsOfKind ty.kind rest.now }
    requires long { length (values_of first.now.values) ≤ length rows.now }
    ensures values { IfOk result (λ out. values_of out.0.values ≡ (joined (spec.settles early) (spec.merges early) rows.now (values_of first.now.values) first_stop (found.found_values rest.now) rest_stop).values) }
    ensures stop { IfOk result (λ out. out.1 ≡ (joined (spec.settles early) (spec.merges early) rows.now (values_of first.now.values) first_stop (found.found_values rest.now) rest_stop).stop) }
    ensures ty { IfOk result (λ out. out.0.ty ≡ ty) }
{
    let mut built = ColumnBuilder::new(alloc, ty);
    let mut used = 0;
    for i in 0..first.values.len() {
        let value = first.values.value_at(alloc, i)?;
        match next_value(alloc, early, value, rest, used)? {
            Some((value, now_used)) => {
                built.push(&value)?;
                used = now_used;
            }
            None => return Ok((built.finish(), rest_stop)),
        }
    }
    Ok((built.finish(), first_stop))
}

/// The value of one row, and how many values of the rest are used then, unless the rest has no value there.
fn next_value(
    alloc: Global,
    early: Early,
    value: Value,
    rest: &Found<'_>,
    used: usize,
) -> Result<Option<(Value, usize)>, NoMemory>
    ensures { IfOk result (λ next. spec.IsNext early value (found.found_values rest.now) used next) }
{
    if settles(early, &value) {
        return Ok(Some((value, used)));
    }
    if used >= rest.len() {
        return Ok(None);
    }
    let other = rest.value_at(alloc, used)?;
    Ok(Some((merged(early, &value, other), used + 1)))
}

/// What a value that settles nothing makes of the value of the arguments after it.
fn merged(early: Early, value: &Value, rest: Value) -> Value
    ensures { spec.merges early value.now rest ≡ Ok result }
{
    match early {
        Early::Truth(end) => three_valued(end, value, &rest),
        Early::NotNull => rest,
    }
}
