// One random aggregate after another.
ghost use Rattle.std.specs.Prelude.{IfOk};
ghost use Rattle.aggregate.specs.States.{IsFor, IsOver};
ghost use Rattle.group_sets.specs.States.{IsFor as AreSetsFor, IsOver as AreSetsOver};
ghost use Rattle.aggregate_tests.specs.Typed.{numbers};

use crate::plans::{RELATION, random_set_spec, random_spec};
use crate::random::Random;
use crate::rows::{Part, are_same, batch_of, push_rows, random_part, rows_of_batch};
use aggregate::Partial;
use batch::Piece;
use group_sets::SetsPartial;
use plan_leaves::Items;
use rel_specs::{AggSpec, SetSpec};
use row_groups::{aggregated, grouping_sets};
use row_steps::{RowStream, Stream};
use std::alloc::Global;
use sub_types::NoMemory;

/// How many of so many random aggregates give what the row engine gives.
pub(crate) fn agreeing(alloc: Global, aggregates: u32) -> Result<u32, NoMemory> {
    let mut random = Random::new(23);
    let mut count: u32 = 0;
    for _ in 0..aggregates {
        let spec = random_spec(alloc, &mut random)?;
        let parts = random_parts(alloc, &mut random)?;
        let middle = random.below(5) as usize;
        if agrees(alloc, &spec, parts.as_slice(), middle)? {
            count = count.saturating_add(1);
        }
    }
    Ok(count)
}

/// The same of aggregates over several sets of groups.
pub(crate) fn agreeing_sets(alloc: Global, aggregates: u32) -> Result<u32, NoMemory> {
    let mut random = Random::new(29);
    let mut count: u32 = 0;
    for _ in 0..aggregates {
        let spec = random_set_spec(alloc, &mut random)?;
        let parts = random_parts(alloc, &mut random)?;
        let middle = random.below(5) as usize;
        if sets_agree(alloc, &spec, parts.as_slice(), middle)? {
            count = count.saturating_add(1);
        }
    }
    Ok(count)
}

// Four parts.
fn random_parts(alloc: Global, random: &mut Random) -> Result<Vec<Part>, NoMemory> {
    let mut parts = Vec::new(alloc);
    for _ in 0..4 {
        let part = random_part(alloc, random)?;
        parts.push(part)?;
    }
    Ok(parts)
}

// Whether an aggregate gives what the row engine gives, where the first so many parts are folded apart from the others.
fn agrees(alloc: Global, spec: &AggSpec, parts: &[Part], middle: usize) -> Result<bool, NoMemory>
    requires { IsOver numbers spec.now }
{
    let input = input_of(alloc, parts)?;
    let groups = spec.groups.as_slice();
    let expected = aggregated(alloc, RELATION, groups, spec.measures.as_slice(), input)?;
    let found = by_parts(alloc, spec, parts, middle)?;
    is_as(alloc, &found, &expected)
}

fn sets_agree(
    alloc: Global,
    spec: &SetSpec,
    parts: &[Part],
    middle: usize,
) -> Result<bool, NoMemory>
    requires { AreSetsOver numbers spec.now }
{
    let input = input_of(alloc, parts)?;
    let sets = sets_in(alloc, spec.sets.as_slice())?;
    let expected = grouping_sets(
        alloc,
        RELATION,
        spec.groups.as_slice(),
        sets.as_slice(),
        spec.measures.as_slice(),
        input,
    )?;
    let found = sets_by_parts(alloc, spec, parts, middle)?;
    is_as(alloc, &found, &expected)
}

fn sets_in(alloc: Global, sets: &[Vec<u32>]) -> Result<Vec<Items<u32>>, NoMemory> {
    let mut copies = Vec::new(alloc);
    for set in sets {
        let copy = Vec::from_slice(alloc, set.as_slice())?;
        copies.push(Items::from_vec(copy))?;
    }
    Ok(copies)
}

/// Whether a piece has the rows and the end of a stream.
pub(crate) fn is_as(alloc: Global, found: &Piece, expected: &RowStream) -> Result<bool, NoMemory> {
    let rows = rows_of_batch(alloc, &found.batch)?;
    Ok(found.end == expected.end && are_same(rows.as_slice(), expected.rows.as_slice()))
}

// The rows of all parts, up to the first fault.
fn input_of(alloc: Global, parts: &[Part]) -> Result<RowStream, NoMemory> {
    let mut rows = Items::new(alloc);
    for part in parts {
        push_rows(alloc, part.pairs.as_slice(), &mut rows)?;
        if part.end.is_some() {
            return Ok(Stream {
                rows,
                end: part.end,
            });
        }
    }
    Ok(Stream { rows, end: None })
}

/// The aggregate by two partial states, of which the first has the first so many parts.
pub(crate) fn by_parts(
    alloc: Global,
    spec: &AggSpec,
    parts: &[Part],
    middle: usize,
) -> Result<Piece, NoMemory>
    requires { IsOver numbers spec.now }
{
    let middle = middle.min(parts.len());
    let mut first = folded(alloc, spec, &parts[..middle])?;
    let second = folded(alloc, spec, &parts[middle..])?;
    first.merge(spec, second)?;
    first.finals(spec)
}

fn folded(alloc: Global, spec: &AggSpec, parts: &[Part]) -> Result<Partial, NoMemory>
    requires { IsOver numbers spec.now }
    ensures { IfOk result (IsFor numbers spec.now) }
{
    let mut partial = Partial::new(alloc, spec)?;
    for part in parts {
        let batch = batch_of(alloc, part.pairs.as_slice())?;
        let piece = Piece {
            batch,
            end: part.end,
        };
        partial.fold_batch(spec, &piece)?;
    }
    Ok(partial)
}

/// The same over several sets of groups.
pub(crate) fn sets_by_parts(
    alloc: Global,
    spec: &SetSpec,
    parts: &[Part],
    middle: usize,
) -> Result<Piece, NoMemory>
    requires { AreSetsOver numbers spec.now }
{
    let middle = middle.min(parts.len());
    let mut first = sets_folded(alloc, spec, &parts[..middle])?;
    let second = sets_folded(alloc, spec, &parts[middle..])?;
    first.merge(spec, second)?;
    first.finals(spec)
}

fn sets_folded(alloc: Global, spec: &SetSpec, parts: &[Part]) -> Result<SetsPartial, NoMemory>
    requires { AreSetsOver numbers spec.now }
    ensures { IfOk result (AreSetsFor numbers spec.now) }
{
    let mut partial = SetsPartial::new(alloc, spec)?;
    for part in parts {
        let batch = batch_of(alloc, part.pairs.as_slice())?;
        let piece = Piece {
            batch,
            end: part.end,
        };
        partial.fold_batch(spec, &piece)?;
    }
    Ok(partial)
}
