// Aggregates and groupings by their expressions.
ghost use Rattle.std.specs.Prelude.{◌≡◌, IfOk, map};

use plan_leaves::{CopyIn, Items, zip};
use plan_typed::{Expr, SetMeasure, TypedMeasure};
use rel_specs::{AggSpec, SetSpec};
use std::alloc::Global;
use sub_types::NoMemory;

/// An aggregate, for the relation of this number.
pub fn agg_spec(
    alloc: Global,
    relation: u32,
    groups: &Items<Expr>,
    measures: &Items<TypedMeasure>,
) -> Result<AggSpec, NoMemory>
    ensures relation { IfOk result (λ spec. spec.relation ≡ relation) }
    ensures groups { IfOk result (λ spec. spec.groups.items ≡ groups.now) }
    ensures measures { IfOk result (λ spec. spec.measures.items ≡ measures.now) }
{
    let (groups, measures) = zip(groups.copy_in(alloc), measures.copy_in(alloc))?;
    Ok(AggSpec {
        groups: groups.into_vec(),
        measures: measures.into_vec(),
        relation,
    })
}

/// Several groupings over the same groups, or with measures of distinct values.
pub fn set_spec(
    alloc: Global,
    relation: u32,
    groups: &Items<Expr>,
    sets: &Items<Items<u32>>,
    measures: &Items<SetMeasure>,
) -> Result<SetSpec, NoMemory>
    ensures relation { IfOk result (λ spec. spec.relation ≡ relation) }
    ensures groups { IfOk result (λ spec. spec.groups.items ≡ groups.now) }
    ensures sets { IfOk result (λ spec. map (λ set. set.items) spec.sets.items ≡ sets.now) }
    ensures measures { IfOk result (λ spec. spec.measures.items ≡ measures.now) }
{
    let lists = zip(groups.copy_in(alloc), measures.copy_in(alloc));
    let ((groups, measures), sets) = zip(lists, each_set(alloc, sets.as_slice()))?;
    Ok(SetSpec {
        groups: groups.into_vec(),
        sets,
        measures: measures.into_vec(),
        relation,
    })
}

/// Each set of places, copied.
fn each_set(alloc: Global, sets: &[Items<u32>]) -> Result<Vec<Vec<u32>>, NoMemory>
    ensures { IfOk result (λ copies. map (λ set. set.items) copies.items ≡ sets.now) }
{
    let mut copies = Vec::with_capacity(alloc, sets.len())?;
    for set in sets {
        copies.push(set.copy_in(alloc)?.into_vec())?;
    }
    Ok(copies)
}
