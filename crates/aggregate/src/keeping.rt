// What the measures keep, and the types of the rows that an aggregate gives.
ghost use Rattle.std.specs.Prelude.{◌≡◌, map, IfOk};
ghost use Rattle.aggregate.specs.Finals.{types_by};
ghost use Rattle.aggregate.specs.States as spec;

use group_tallies::{Keeping, keeping_of};
use plan_typed::TypedMeasure;
use rel_specs::AggSpec;
use std::alloc::Global;
use sub_types::{NoMemory, Ty};

/// What each measure keeps.
pub(crate) fn keepings_of(
    alloc: Global,
    measures: &[TypedMeasure],
) -> Result<Vec<Keeping>, NoMemory>
    ensures { IfOk result (λ keepings. keepings.items ≡ map spec.keeping measures.now) }
{
    let mut keepings = Vec::with_capacity(alloc, measures.len())?;
    for measure in measures {
        keepings.push(keeping_of(measure.func))?;
    }
    Ok(keepings)
}

/// The types of the grouping expressions, and those of the measures.
pub(crate) fn types_of(alloc: Global, spec: &AggSpec) -> Result<Vec<Ty>, NoMemory>
    ensures { IfOk result (λ types. types.items ≡ types_by spec.now) }
{
    let mut types = Vec::new(alloc);
    for group in &spec.groups {
        types.push(group.ty())?;
    }
    for measure in &spec.measures {
        types.push(measure.ty)?;
    }
    Ok(types)
}
