// Aggregates over two columns of numbers.
ghost use Rattle.std.specs.Prelude.{◌≡◌, ◌<◌, ◌≤◌, length, All, IfOk};
ghost use Rattle.well_typed.specs.ExprTyped.{IsTypedOver};
ghost use Rattle.well_typed.specs.WellTyped.{IsMeasureOver, IsSetMeasureOver, IsConditionOver, MayBe};
ghost use Rattle.aggregate.specs.States.{IsOver};
ghost use Rattle.group_sets.specs.States.{IsOver as AreSetsOver};
ghost use Rattle.aggregate_tests.specs.Typed.{IsTyped, numbers};

use crate::calls::{first, quotient, second, under};
use crate::measures::{count, greatest, least, over, rows, sum};
use crate::random::Random;
use crate::rows::NUMBER;
use plan_typed::{Expr, SetMeasure, TypedMeasure};
use rel_specs::{AggSpec, SetSpec};
use std::alloc::Global;
use sub_types::NoMemory;

/// The number of the aggregate's relation.
pub(crate) const RELATION: u32 = 5;

/// Up to two grouping expressions and up to three measures.
pub(crate) fn random_spec(alloc: Global, random: &mut Random) -> Result<AggSpec, NoMemory>
    ensures { IfOk result (IsOver numbers) }
{
    let groups = random_groups(alloc, random)?;
    let measures = random_measures(alloc, random)?;
    Ok(AggSpec {
        groups,
        measures,
        relation: RELATION,
    })
}

fn random_groups(alloc: Global, random: &mut Random) -> Result<Vec<Expr>, NoMemory>
    ensures { IfOk result (λ groups. All (IsTypedOver numbers) groups.items) }
{
    let mut groups = Vec::new(alloc);
    let count = random.below(3);
    for _ in 0..count {
        let group = random_expr(alloc, random)?;
        groups.push(group)?;
    }
    Ok(groups)
}

fn random_measures(alloc: Global, random: &mut Random) -> Result<Vec<TypedMeasure>, NoMemory>
    ensures { IfOk result (λ measures. All (IsMeasureOver numbers) measures.items) }
{
    let mut measures = Vec::new(alloc);
    let count = random.below(4);
    for _ in 0..count {
        let measure = random_measure(alloc, random)?;
        measures.push(measure)?;
    }
    Ok(measures)
}

/// Up to two grouping expressions, up to three sets of them, and up to three measures, some of them over distinct values.
pub(crate) fn random_set_spec(alloc: Global, random: &mut Random) -> Result<SetSpec, NoMemory>
    ensures { IfOk result (AreSetsOver numbers) }
{
    let groups = random_groups(alloc, random)?;
    let sets = random_sets(alloc, random, groups.len())?;
    let measures = random_set_measures(alloc, random)?;
    Ok(SetSpec {
        groups,
        sets,
        measures,
        relation: RELATION,
    })
}

fn random_sets(alloc: Global, random: &mut Random, width: usize) -> Result<Vec<Vec<u32>>, NoMemory>
    ensures { IfOk result (λ sets. length sets.items ≤ 3) }
{
    let mut sets = Vec::new(alloc);
    let count = random.below(4);
    for _ in 0..count {
        let set = random_set(alloc, random, width)?;
        sets.push(set)?;
    }
    Ok(sets)
}

fn random_set(alloc: Global, random: &mut Random, width: usize) -> Result<Vec<u32>, NoMemory> {
    // No memory holds so many groups.
    let Ok(width) = u32::try_from(width) else {
        return Err(NoMemory);
    };
    let mut set = Vec::new(alloc);
    for place in 0..width {
        if random.below(2) == 0 {
            set.push(place)?;
        }
    }
    Ok(set)
}

fn random_set_measures(alloc: Global, random: &mut Random) -> Result<Vec<SetMeasure>, NoMemory>
    ensures { IfOk result (λ measures. All (IsSetMeasureOver numbers) measures.items) }
{
    let mut measures = Vec::new(alloc);
    let count = random.below(4);
    for _ in 0..count {
        let measure = random_measure(alloc, random)?;
        let distinct = random.below(2) == 0;
        measures.push(over(measure, distinct))?;
    }
    Ok(measures)
}

fn random_measure(alloc: Global, random: &mut Random) -> Result<TypedMeasure, NoMemory>
    ensures { IfOk result (IsMeasureOver numbers) }
{
    let filter = random_filter(alloc, random)?;
    let arg = random_expr(alloc, random)?;
    let which = random.below(5);
    Ok(measure_of(which, arg, filter))
}

// One of the measures.
fn measure_of(which: u64, arg: Expr, filter: Option<Expr>) -> TypedMeasure
    requires arg { IsTyped NUMBER arg }
    requires filter { MayBe (IsConditionOver numbers) filter }
    ensures { IsMeasureOver numbers result }
{
    match which {
        0 => sum(arg, filter),
        1 => least(arg, filter),
        2 => greatest(arg, filter),
        3 => count(arg, filter),
        _ => rows(filter),
    }
}

fn random_filter(alloc: Global, random: &mut Random) -> Result<Option<Expr>, NoMemory>
    ensures { IfOk result (MayBe (IsConditionOver numbers)) }
{
    if random.below(2) == 0 {
        return Ok(None);
    }
    let other = random_expr(alloc, random)?;
    let test = under(alloc, first(), other)?;
    Ok(Some(test))
}

// A column, or the quotient of both, which faults at 0.
fn random_expr(alloc: Global, random: &mut Random) -> Result<Expr, NoMemory>
    ensures { IfOk result (IsTyped NUMBER) }
{
    match random.below(16) {
        0 => quotient(alloc, first(), second()),
        1..=8 => Ok(first()),
        _ => Ok(second()),
    }
}
