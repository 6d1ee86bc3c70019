// What is known of the groups of a piece.
ghost use Rattle.std.specs.Prelude.{IfOk};
ghost use Rattle.batch.specs.BatchRows.{types_of};
ghost use Rattle.plan_pipes.specs.declared.pipe.Breaker.TheVariants as breakers;
ghost use Rattle.pipe_types.specs.Over.{IsBreakerOver};
ghost use Rattle.pipe_steps.specs.Ready.{IsFit};
ghost use Rattle.pipe_parts.specs.Parts.{IsPart};

use crate::kinds::{are_kinds, types_in};
use crate::part::Part;
use aggregate::Partial;
use batch::Piece;
use group_sets::SetsPartial;
use rel_specs::{AggSpec, SetSpec};
use std::alloc::Global;
use sub_types::NoMemory;

/// The most sets of groups.
const MAX_GROUPINGS: usize = 64;

/// What is known of the groups of a piece's rows.
pub(crate) fn groups_of(alloc: Global, spec: &AggSpec, piece: Piece) -> Result<Part, NoMemory>
    requires over { IsBreakerOver (types_of piece.batch) (breakers.Aggregate spec.now) }
    requires fit { IsFit piece.batch }
    ensures { IfOk result (IsPart (breakers.Aggregate spec.now) piece) }
{
    let types = types_in(alloc, &piece.batch.columns)?;
    if !are_kinds(&types) {
        return Err(NoMemory);
    }
    let mut partial = Partial::new(alloc, spec)?;
    let _end = partial.fold_batch(spec, &piece)?;
    Ok(Part::Groups(partial))
}

/// The same over several sets of groups.
pub(crate) fn sets_of(alloc: Global, spec: &SetSpec, piece: Piece) -> Result<Part, NoMemory>
    requires over { IsBreakerOver (types_of piece.batch) (breakers.GroupSets spec.now) }
    requires fit { IsFit piece.batch }
    ensures { IfOk result (IsPart (breakers.GroupSets spec.now) piece) }
{
    if spec.sets.len() > MAX_GROUPINGS {
        return Err(NoMemory);
    }
    let types = types_in(alloc, &piece.batch.columns)?;
    if !are_kinds(&types) {
        return Err(NoMemory);
    }
    let mut partial = SetsPartial::new(alloc, spec)?;
    let _end = partial.fold_batch(spec, &piece)?;
    Ok(Part::Sets(partial))
}
