// The read relations of a plan.
ghost use Rattle.std.specs.Prelude.{◌≡◌, ◌++◌, ◌∷◌, [], IfOk, IsTrue, OnOk, length, map};
ghost use Rattle.std.specs.List.{All, flat_map};
ghost use Rattle.plan_reads.specs.Reads as spec;

use plan_leaves::{CopyIn, Items};
use plan_typed::{Holed, Op, Rel, Source, Sub};
use std::alloc::Global;
use sub_types::{ByteList, NoMemory, Ty};

/// What a read relation reads.
#[derive(Drop)]
pub enum Origin {
    /// Tables by their names, one after the other.
    Named(Items<ByteList>),
    /// So many rows that stand in the plan.
    Rows(u64),
}

/// A read relation of a plan: its number, what it reads, and the names and the types of the columns of that.
#[derive(Drop)]
pub struct PlanRead {
    pub relation: u32,
    pub origin: Origin,
    pub names: Items<ByteList>,
    pub types: Items<Ty>,
}

/// The read relations of a plan and of its subqueries, by their numbers. Each column of theirs has a place that a `u32`
/// holds; a plan with more columns is answered with `NoMemory`.
pub fn reads_of(alloc: Global, plan: &Holed) -> Result<Vec<PlanRead>, NoMemory>
    ensures reads { IfOk result (λ reads. reads.items ≡ spec.reads_of plan.now) }
    ensures few { IfOk result (λ reads. All spec.HasFewNames reads.items) }
{
    let mut reads = Vec::new(alloc);
    push_subs(alloc, plan.subs.as_slice(), &mut reads)?;
    push_reads(alloc, &plan.typed.rel, &mut reads)?;
    reads.sort_by(|a, b| a.relation.cmp(&b.relation))?;
    // No plan within the limits on its bytes has so many columns.
    if !have_few_names(reads.as_slice()) {
        return Err(NoMemory);
    }
    Ok(reads)
}

/// Whether a `u32` holds the place of each column.
fn have_few_names(reads: &[PlanRead]) -> bool
    ensures { IsTrue result → All spec.HasFewNames reads.now }
{
    reads
        .iter()
        .all(|read| read.names.len() <= u32::MAX as usize)
}

/// Adds those of the relations of subqueries.
fn push_subs(alloc: Global, subs: &[Sub], reads: &mut Vec<PlanRead>) -> Result<(), NoMemory>
    ensures { OnOk result (reads.new.items ≡ reads.old.items ++ flat_map (λ sub. spec.reads_in sub.rel) subs.now) }
{
    for sub in subs {
        push_reads(alloc, &sub.rel, reads)?;
    }
    Ok(())
}

/// Adds those of a relation.
#[cycle(reads)]
fn push_reads(alloc: Global, rel: &Rel, reads: &mut Vec<PlanRead>) -> Result<(), NoMemory>
    ensures { OnOk result (reads.new.items ≡ reads.old.items ++ spec.reads_in rel.now) }
{
    match &rel.op {
        Op::Read {
            source,
            names,
            types,
            ..
        } => push_read(alloc, rel.number, source, names, types, reads),
        Op::Filter { input, .. }
        | Op::Project { input, .. }
        | Op::Fetch { input, .. }
        | Op::Sort { input, .. }
        | Op::Aggregate { input, .. }
        | Op::GroupSets { input, .. } => push_reads(alloc, input.get(), reads),
        Op::Join { left, right, .. } | Op::Cross { left, right } => {
            push_reads(alloc, left.get(), reads)?;
            push_reads(alloc, right.get(), reads)
        }
        Op::Set { inputs, .. } => push_all(alloc, inputs.as_slice(), reads),
    }
}

/// Adds those of each relation.
#[cycle(reads)]
fn push_all(alloc: Global, rels: &[Rel], reads: &mut Vec<PlanRead>) -> Result<(), NoMemory>
    ensures { OnOk result (reads.new.items ≡ reads.old.items ++ flat_map spec.reads_in rels.now) }
{
    for rel in rels {
        push_reads(alloc, rel, reads)?;
    }
    Ok(())
}

/// Adds one read relation.
fn push_read(
    alloc: Global,
    relation: u32,
    source: &Source,
    names: &Items<ByteList>,
    types: &Items<Ty>,
    reads: &mut Vec<PlanRead>,
) -> Result<(), NoMemory>
    ensures { OnOk result (reads.new.items ≡ reads.old.items ++ spec.read_of relation source.now names.now types.now ∷ []) }
{
    let read = PlanRead {
        relation,
        origin: origin_of(alloc, source)?,
        names: names.copy_in(alloc)?,
        types: types.copy_in(alloc)?,
    };
    reads.push(read)?;
    Ok(())
}

/// What a source is for a read.
fn origin_of(alloc: Global, source: &Source) -> Result<Origin, NoMemory>
    ensures { IfOk result (λ origin. origin ≡ spec.origin_of source.now) }
{
    match source {
        Source::Named(names) => Ok(Origin::Named(names.copy_in(alloc)?)),
        Source::Rows(rows) => Ok(Origin::Rows(rows.len() as u64)),
    }
}
