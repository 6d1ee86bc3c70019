// The types of the rows that grouping sets give.
ghost use Rattle.std.specs.Prelude.{◌≡◌, ◌||◌, ◌++◌, not, map, IfOk, OnOk};
ghost use Rattle.std.specs.List.{list_all, enumerate_from};
ghost use Rattle.plan_typed.specs.Types.{ty_of};
ghost use Rattle.plan_typed.specs.declared.rel.SetMeasure.{SetMeasure as Measured};
ghost use Rattle.well_typed.specs.Columns as spec;
ghost use Rattle.group_sets.specs.Finals.{types_by};

use plan_typed::{Expr, SetMeasure};
use rel_specs::SetSpec;
use std::alloc::Global;
use sub_types::{Kind, NoMemory, Ty};

/// The types of the groups, of the measures, and of the number of the set, where there are several.
pub(crate) fn types_in(alloc: Global, spec: &SetSpec) -> Result<Vec<Ty>, NoMemory>
    ensures { IfOk result (λ types. types.items ≡ types_by spec.now) }
{
    let types = types_over(
        alloc,
        spec.groups.as_slice(),
        spec.sets.as_slice(),
        spec.measures.as_slice(),
    )?;
    Ok(types)
}

fn types_over(
    alloc: Global,
    groups: &[Expr],
    sets: &[Vec<u32>],
    measures: &[SetMeasure],
) -> Result<Vec<Ty>, NoMemory>
    ensures { IfOk result (λ types. types.items ≡ map (spec.group_type (map (λ set. set.items) sets.now)) (enumerate_from 0 groups.now) ++ map (λ (one : Measured). one.measure.ty) measures.now ++ spec.number_column (map (λ set. set.items) sets.now)) }
{
    let mut types = group_types(alloc, groups, sets)?;
    add_measures(measures, &mut types)?;
    add_number(sets, &mut types)?;
    Ok(types)
}

/// Those of the groups' columns, which may be null where some set lacks the group.
fn group_types(alloc: Global, groups: &[Expr], sets: &[Vec<u32>]) -> Result<Vec<Ty>, NoMemory>
    ensures { IfOk result (λ types. types.items ≡ map (spec.group_type (map (λ set. set.items) sets.now)) (enumerate_from 0 groups.now)) }
{
    let mut types = Vec::new(alloc);
    for place in 0..groups.len() {
        types.push(group_type(&groups[place], is_in_all(sets, place)))?;
    }
    Ok(types)
}

fn group_type(group: &Expr, is_in_all: bool) -> Ty
    ensures { result ≡ record { kind = (ty_of group.now).kind; nullable = (ty_of group.now).nullable || not is_in_all } }
{
    let ty = group.ty();
    Ty {
        kind: ty.kind,
        nullable: ty.nullable || !is_in_all,
    }
}

/// Whether each set has a group, by its place.
fn is_in_all(sets: &[Vec<u32>], place: usize) -> bool
    ensures { result ≡ list_all (spec.has_place place) (map (λ set. set.items) sets.now) }
{
    for set in sets {
        if !has_place(set.as_slice(), place) {
            return false;
        }
    }
    true
}

fn has_place(set: &[u32], place: usize) -> bool
    ensures { result ≡ spec.has_place place set.now }
{
    set.iter().any(|one| *one as usize == place)
}

fn add_measures(measures: &[SetMeasure], types: &mut Vec<Ty>) -> Result<(), NoMemory>
    ensures { OnOk result (types.new.items ≡ types.old.items ++ map (λ (one : Measured). one.measure.ty) measures.now) }
{
    for one in measures {
        types.push(one.measure.ty)?;
    }
    Ok(())
}

fn add_number(sets: &[Vec<u32>], types: &mut Vec<Ty>) -> Result<(), NoMemory>
    ensures { OnOk result (types.new.items ≡ types.old.items ++ spec.number_column (map (λ set. set.items) sets.now)) }
{
    if sets.len() <= 1 {
        return Ok(());
    }
    types.push(Ty {
        kind: Kind::I32,
        nullable: false,
    })?;
    Ok(())
}
