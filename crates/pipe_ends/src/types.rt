// The types that a breaker stores.
ghost use Rattle.std.specs.Prelude.{◌≡◌, ◌++◌, [], map, IfOk, OnOk};
ghost use Rattle.std.specs.List.{enumerate_from};
ghost use Rattle.plan_typed.specs.declared.rel.SetMeasure.{SetMeasure as Measured};
ghost use Rattle.plan_typed.specs.declared.rel.TypedMeasure.{TypedMeasure as Typed};
ghost use Rattle.plan_typed.specs.Types.{ty_of};
ghost use Rattle.well_typed.specs.Columns.{group_type, number_column};
ghost use Rattle.plan_pipes.specs.declared.pipe.Breaker.TheVariants as breakers;
ghost use Rattle.pipe_types.specs.Exact.{gathered_types};

use crate::set_groups::{group_types, sets_in};
use plan_leaves::Items;
use plan_pipes::Breaker;
use plan_typed::{Expr, SetMeasure, TypedMeasure};
use rel_specs::{AggSpec, SetSpec};
use std::alloc::Global;
use sub_types::{Kind, NoMemory, Ty};

/// The types that the columns of what a breaker gathers are stored with, of pieces that are stored with these.
pub fn types_gathered(alloc: Global, breaker: &Breaker, types: &[Ty]) -> Result<Vec<Ty>, NoMemory>
    ensures { IfOk result (λ given. given.items ≡ gathered_types breaker.now types.now) }
{
    match breaker {
        Breaker::Aggregate(spec) => aggregate_types(alloc, spec),
        Breaker::GroupSets(spec) => grouping_types(alloc, spec),
        Breaker::Gather | Breaker::Fetch { .. } | Breaker::Sort(_) | Breaker::Build(_) => {
            types_as_given(alloc, types)
        }
    }
}

fn types_as_given(alloc: Global, types: &[Ty]) -> Result<Vec<Ty>, NoMemory>
    ensures { IfOk result (λ given. given.items ≡ types.now) }
{
    let mut given = Vec::with_capacity(alloc, types.len())?;
    given.extend_from_slice(types)?;
    Ok(given)
}

/// Those of the groups and the measures.
pub(crate) fn aggregate_types(alloc: Global, spec: &AggSpec) -> Result<Vec<Ty>, NoMemory>
    ensures { IfOk result (λ given. given.items ≡ map ty_of spec.now.groups.items ++ map (λ (one : Typed). one.ty) spec.now.measures.items) }
{
    let mut given = Vec::new(alloc);
    add_groups(&spec.groups, &mut given)?;
    add_measures(&spec.measures, &mut given)?;
    Ok(given)
}

fn add_groups(groups: &[Expr], given: &mut Vec<Ty>) -> Result<(), NoMemory>
    ensures { OnOk result (given.new.items ≡ given.old.items ++ map ty_of groups.now) }
{
    for group in groups {
        given.push(group.ty())?;
    }
    Ok(())
}

fn add_measures(measures: &[TypedMeasure], given: &mut Vec<Ty>) -> Result<(), NoMemory>
    ensures { OnOk result (given.new.items ≡ given.old.items ++ map (λ (one : Typed). one.ty) measures.now) }
{
    for one in measures {
        given.push(one.ty)?;
    }
    Ok(())
}

/// Those of the groups, which may be null where a set lacks them, of the measures, and of the number of the set where there are
/// several.
pub(crate) fn grouping_types(alloc: Global, spec: &SetSpec) -> Result<Vec<Ty>, NoMemory>
    ensures { IfOk result (λ given. given.items ≡ gathered_types (breakers.GroupSets spec.now) []) }
{
    let sets = sets_in(alloc, &spec.sets)?;
    let given = types_over(alloc, &spec.groups, &sets, &spec.measures)?;
    Ok(given)
}

// The same, by the parts of the aggregate.
fn types_over(
    alloc: Global,
    groups: &[Expr],
    sets: &[Items<u32>],
    measures: &[SetMeasure],
) -> Result<Vec<Ty>, NoMemory>
    ensures { IfOk result (λ given. given.items ≡ map (group_type sets.now) (enumerate_from 0 groups.now) ++ map (λ (one : Measured). one.measure.ty) measures.now ++ number_column sets.now) }
{
    let mut given = group_types(alloc, groups, sets)?;
    add_set_measures(measures, &mut given)?;
    add_number(sets, &mut given)?;
    Ok(given)
}

fn add_set_measures(measures: &[SetMeasure], given: &mut Vec<Ty>) -> Result<(), NoMemory>
    ensures { OnOk result (given.new.items ≡ given.old.items ++ map (λ (one : Measured). one.measure.ty) measures.now) }
{
    for one in measures {
        given.push(one.measure.ty)?;
    }
    Ok(())
}

fn add_number(sets: &[Items<u32>], given: &mut Vec<Ty>) -> Result<(), NoMemory>
    ensures { OnOk result (given.new.items ≡ given.old.items ++ number_column sets.now) }
{
    if sets.len() > 1 {
        given.push(Ty {
            kind: Kind::I32,
            nullable: false,
        })?;
    }
    Ok(())
}
