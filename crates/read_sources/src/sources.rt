// Read relations, lent.
ghost use Rattle.std.specs.Prelude.{◌≡◌, ◌++◌, ◌∷◌, [], IfOk, OnOk, map};
ghost use Rattle.std.specs.List.{flat_map};
ghost use Rattle.std.specs.Option.{option_map};
ghost use Rattle.cut_laws.specs.Found.{read_rels, read_at};
ghost use Rattle.read_sources.specs.Seen as spec;

use plan_typed::{Op, Rel, Source};
use std::alloc::Global;
use sub_types::{NoMemory, Ty};

/// A read relation: its number, what it reads, and the types of the columns of that.
#[derive(Clone, Copy)]
pub struct ReadSource<'a> {
    pub number: u32,
    pub source: &'a Source,
    pub types: &'a [Ty],
}

/// The read relations of a relation and below it, those of a join's right input before those of its left one.
pub fn sources_of<'a>(alloc: Global, rel: &'a Rel) -> Result<Vec<ReadSource<'a>>, NoMemory>
    ensures { IfOk result (λ reads. map spec.read_seen reads.items ≡ read_rels rel.now) }
{
    let mut reads = Vec::new(alloc);
    push_reads(rel, &mut reads)?;
    Ok(reads)
}

/// The first read relation of this number.
pub fn source_at<'a>(reads: &[ReadSource<'a>], number: u32) -> Option<ReadSource<'a>>
    ensures { option_map spec.read_seen result ≡ read_at number (map spec.read_seen reads.now) }
{
    for read in reads {
        if read.number == number {
            return Some(*read);
        }
    }
    None
}

/// Adds those of a relation.
#[cycle(sources)]
fn push_reads<'a>(rel: &'a Rel, reads: &mut Vec<ReadSource<'a>>) -> Result<(), NoMemory>
    ensures { OnOk result (map spec.read_seen reads.new.items ≡ map spec.read_seen reads.old.items ++ read_rels rel.now) }
{
    match &rel.op {
        Op::Read { source, types, .. } => push_read(rel.number, source, types.as_slice(), reads),
        Op::Filter { input, .. }
        | Op::Project { input, .. }
        | Op::Fetch { input, .. }
        | Op::Sort { input, .. }
        | Op::Aggregate { input, .. }
        | Op::GroupSets { input, .. } => push_reads(input.get(), reads),
        Op::Join { left, right, .. } | Op::Cross { left, right } => {
            push_reads(right.get(), reads)?;
            push_reads(left.get(), reads)
        }
        Op::Set { inputs, .. } => push_all(inputs.as_slice(), reads),
    }
}

/// Adds those of each relation.
#[cycle(sources)]
fn push_all<'a>(rels: &'a [Rel], reads: &mut Vec<ReadSource<'a>>) -> Result<(), NoMemory>
    ensures { OnOk result (map spec.read_seen reads.new.items ≡ map spec.read_seen reads.old.items ++ flat_map read_rels rels.now) }
{
    for rel in rels {
        push_reads(rel, reads)?;
    }
    Ok(())
}

/// Adds one read relation.
fn push_read<'a>(
    number: u32,
    source: &'a Source,
    types: &'a [Ty],
    reads: &mut Vec<ReadSource<'a>>,
) -> Result<(), NoMemory>
    ensures { OnOk result (map spec.read_seen reads.new.items ≡ map spec.read_seen reads.old.items ++ spec.read_rel number source.now types.now ∷ []) }
{
    reads.push(ReadSource {
        number,
        source,
        types,
    })?;
    Ok(())
}
