// What an aggregate gives: its columns, and the relation's operation.
ghost use Rattle.std.specs.Prelude.{◌≡◌, ◌<◌, ◌++◌, ◌||◌, ◌==◌, ℕ, IfOk, OnOk, length, map, not, replicate, slice_index};
ghost use Rattle.std.specs.List.{enumerate_from, list_all, list_any};
ghost use Rattle.plan_typed.specs.Types.{ty_of};
ghost use Rattle.plan_typed.specs.declared.rel.Op.TheVariants as ops;
ghost use Rattle.plan_typed.specs.declared.rel.SetMeasure.{SetMeasure as Measured};
ghost use Rattle.check_groups.specs.Counts.{counted};
ghost use Rattle.plan_verdict.specs.Aggregates as spec;
ghost use Rattle.plan_verdict.specs.Checking.{Agrees};
ghost use Rattle.plan_verdict.specs.Columns.{finished_in as finished_as};

use plan_leaves::{Boxed, Items, RelCommon, zip};
use plan_rules::{beside, finished_in};
use plan_typed::{Expr, Op, Rel, SetMeasure, TypedMeasure};
use plan_verdict::{CheckError, Groups};
use std::alloc::Global;
use sub_types::{Kind, NoMemory, Ty};

/// The groups, the measures, and the number of the set where there are several.
pub(crate) fn aggregate_columns(
    alloc: Global,
    found: &Groups,
    measures: &[SetMeasure],
) -> Result<Items<Ty>, NoMemory>
    ensures { IfOk result (λ columns. columns ≡ spec.aggregate_columns found.now measures.now) }
{
    let mut columns = group_columns(alloc, found.groups.as_slice(), found.sets.as_slice())?;
    add_types(&mut columns, measures)?;
    add_number(&mut columns, found.sets.as_slice())?;
    Ok(columns)
}

/// The groups' columns, which may be null where some set is without the group.
fn group_columns(alloc: Global, groups: &[Expr], sets: &[Items<u32>]) -> Result<Items<Ty>, NoMemory>
    ensures { IfOk result (λ columns. columns ≡ map (spec.group_type sets.now) (enumerate_from 0 groups.now)) }
{
    let held = sets_with(alloc, groups.len(), sets)?;
    let mut columns = Items::new(alloc);
    for (place, expr) in groups.iter().enumerate() {
        columns.push(group_type(expr, held[place] == sets.len()))?;
    }
    Ok(columns)
}

fn group_type(expr: &Expr, is_in_all: bool) -> Ty
    ensures { result ≡ record { kind = (ty_of expr.now).kind; nullable = (ty_of expr.now).nullable || not is_in_all } }
{
    let ty = expr.ty();
    Ty {
        kind: ty.kind,
        nullable: ty.nullable || !is_in_all,
    }
}

/// For each of `count` groups how many of the sets hold it, up to the first that doesn't.
fn sets_with(alloc: Global, count: usize, sets: &[Items<u32>]) -> Result<Vec<usize>, NoMemory>
    ensures len { IfOk result (λ held. length held.items ≡ count) }
    ensures all { IfOk result (λ held. (k : ℕ) → k < count → (slice_index held.items k == length sets.now) ≡ list_all (spec.has_place k) sets.now) }
{
    let mut held = none_yet(alloc, count)?;
    for (number, set) in sets.iter().enumerate() {
        count_set(&mut held, number, set.as_slice());
    }
    Ok(held)
}

fn none_yet(alloc: Global, count: usize) -> Result<Vec<usize>, NoMemory>
    ensures { IfOk result (λ held. held.items ≡ replicate count 0) }
{
    Ok(vec![in alloc; 0; count]?)
}

/// Counts the set with this number for the groups that all sets before it hold.
fn count_set(held: &mut Vec<usize>, number: usize, set: &[u32])
    requires { number < 18446744073709551615 }
    ensures len { length held.new.items ≡ length held.old.items }
    ensures counts { (k : ℕ) → k < length held.old.items → slice_index held.new.items k ≡ counted number (slice_index held.old.items k) (spec.has_place k set.now) }
{
    for one in set {
        count_place(held, number, *one as usize);
    }
}

/// The same of one place. One that no group has is passed over.
fn count_place(held: &mut Vec<usize>, number: usize, place: usize)
    requires { number < 18446744073709551615 }
    ensures len { length held.new.items ≡ length held.old.items }
    ensures counts { (k : ℕ) → k < length held.old.items → slice_index held.new.items k ≡ counted number (slice_index held.old.items k) (place == k) }
{
    if place < held.len() && held[place] == number {
        held[place] = number + 1;
    }
}

/// The number of the set, behind the columns, where there are several.
fn add_number(columns: &mut Items<Ty>, sets: &[Items<u32>]) -> Result<(), NoMemory>
    ensures { OnOk result (columns.new ≡ columns.old ++ spec.number_column sets.now) }
{
    if sets.len() > 1 {
        columns.push(Ty {
            kind: Kind::I32,
            nullable: false,
        })?;
    }
    Ok(())
}

/// The types of measures, behind the columns.
fn add_types(columns: &mut Items<Ty>, measures: &[SetMeasure]) -> Result<(), NoMemory>
    ensures { OnOk result (columns.new ≡ columns.old ++ map (λ (one : Measured). one.measure.ty) measures.now) }
{
    for one in measures {
        columns.push(one.measure.ty)?;
    }
    Ok(())
}

/// An aggregate over one set of all groups, unless there are several sets or a measure is over distinct values.
pub(crate) fn aggregate_op(
    alloc: Global,
    rel: Rel,
    found: Groups,
    measures: Items<SetMeasure>,
) -> Result<Op, NoMemory>
    ensures { IfOk result (λ op. op ≡ spec.aggregate_op rel found measures) }
{
    let Groups { groups, sets } = found;
    if sets.len() > 1 || some_distinct(measures.as_slice()) {
        return Ok(Op::GroupSets {
            input: Boxed::new(alloc, rel)?,
            groups,
            sets,
            measures,
        });
    }
    Ok(one_set_op(alloc, rel, groups, measures)?)
}

/// An aggregate over one set of all groups, with measures over all values.
fn one_set_op(
    alloc: Global,
    rel: Rel,
    groups: Items<Expr>,
    measures: Items<SetMeasure>,
) -> Result<Op, NoMemory>
    ensures { IfOk result (λ op. op ≡ ops.Aggregate rel groups (map (λ (one : Measured). one.measure) measures)) }
{
    let (input, measures) = zip(Boxed::new(alloc, rel), each_measure(alloc, measures))?;
    Ok(Op::Aggregate {
        input,
        groups,
        measures,
    })
}

fn some_distinct(measures: &[SetMeasure]) -> bool
    ensures { result ≡ list_any (λ (one : Measured). one.distinct) measures.now }
{
    measures.iter().any(|one| one.distinct)
}

/// The measures alone.
fn each_measure(alloc: Global, measures: Items<SetMeasure>) -> Result<Items<TypedMeasure>, NoMemory>
    ensures { IfOk result (λ alone. alone ≡ map (λ (one : Measured). one.measure) measures) }
{
    let mut alone = Items::new(alloc);
    for one in measures.into_vec() {
        alone.push(one.measure)?;
    }
    Ok(alone)
}

/// The relation of these groups and measures over this input.
pub(crate) fn aggregate_of(
    alloc: Global,
    number: u32,
    common: &Option<RelCommon>,
    input: Rel,
    found: Groups,
    measures: Items<SetMeasure>,
) -> Result<Rel, CheckError>
    ensures { Agrees result number (finished_as number common.now (spec.aggregate_op input found measures) (spec.aggregate_columns found measures)) }
{
    let columns = aggregate_columns(alloc, &found, measures.as_slice());
    let (input, columns) = beside(input, columns)?;
    let op = aggregate_op(alloc, input, found, measures)?;
    finished_in(alloc, number, common, op, columns.as_slice())
}
