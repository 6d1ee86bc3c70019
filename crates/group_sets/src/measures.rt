// The measures of grouping sets.
ghost use Rattle.std.specs.Prelude.{◌≡◌, map, IfOk};
ghost use Rattle.set_states.specs.States.{measure_in};

use plan_leaves::CopyIn;
use plan_typed::{SetMeasure, TypedMeasure};
use std::alloc::Global;
use sub_types::NoMemory;

/// The measures, each as over all values.
pub(crate) fn plain_measures(
    alloc: Global,
    measures: &[SetMeasure],
) -> Result<Vec<TypedMeasure>, NoMemory>
    ensures { IfOk result (λ plain. plain.items ≡ map measure_in measures.now) }
{
    let mut plain = Vec::with_capacity(alloc, measures.len())?;
    for one in measures {
        let measure = one.measure.copy_in(alloc)?;
        plain.push(measure)?;
    }
    Ok(plain)
}
