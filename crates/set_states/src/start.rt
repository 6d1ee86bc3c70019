// What is known of no rows.
ghost use Rattle.std.specs.Prelude.{◌≡◌, not, map, IfOk};
ghost use Rattle.std.specs.List.{list_any};
ghost use Rattle.plan_typed.specs.declared.rel.SetMeasure.{SetMeasure as Measured};
ghost use Rattle.set_states.specs.States as spec;

use group_firsts::Firsts;
use group_tallies::{Keeping, keeping_of};
use plan_typed::SetMeasure;
use std::alloc::Global;
use sub_types::NoMemory;

/// What each measure keeps.
pub fn keepings_of(alloc: Global, measures: &[SetMeasure]) -> Result<Vec<Keeping>, NoMemory>
    ensures { IfOk result (λ keepings. keepings.items ≡ map spec.keeping measures.now) }
{
    let mut keepings = Vec::with_capacity(alloc, measures.len())?;
    for one in measures {
        keepings.push(keeping_of(one.measure.func))?;
    }
    Ok(keepings)
}

/// No values for each of so many measures.
pub(crate) fn no_firsts(alloc: Global, measures: usize) -> Result<Vec<Firsts>, NoMemory>
    ensures { IfOk result (λ firsts. spec.AreNone measures firsts.items) }
{
    let mut firsts = Vec::new(alloc);
    for _ in 0..measures {
        let none = Firsts::new(alloc);
        firsts.push(none)?;
    }
    Ok(firsts)
}

/// Whether no measure is over distinct values.
pub(crate) fn is_plain(measures: &[SetMeasure]) -> bool
    ensures { result ≡ not (list_any (λ (one : Measured). one.distinct) measures.now) }
{
    for one in measures {
        let distinct = one.distinct;
        if distinct {
            return false;
        }
    }
    true
}
