// Aggregates over one set of groups and over several, by what is known of the groups of each part.
ghost use Rattle.std.specs.Prelude.{◌≡◌, All, IfOk};
ghost use Rattle.sub_types.specs.Stream.{Stream};
ghost use Rattle.batch.specs.BatchRows.{types_of};
ghost use Rattle.set_rels.specs.Inputs.{stream_of};
ghost use Rattle.plan_denote.specs.Rows.{Row};
ghost use Rattle.plan_pipes.specs.RowMeaning.{aggregated_by, grouped_by};
ghost use Rattle.pipe_types.specs.Over.{IsBreakerOver};
ghost use Rattle.plan_pipes.specs.declared.pipe.Breaker.TheVariants as breakers;
ghost use Rattle.pipe_steps.specs.Ready.{IsFit};
ghost use Rattle.pipe_types.specs.Exact.{gathered_types};
ghost use Rattle.pipe_parts.specs.Parts.{ArePartsOf, HaveParts};

use crate::ends::one_piece;
use crate::merging::{merged_groups, merged_sets};
use crate::taking::{partials_in, set_partials_in};
use batch::Piece;
use pipe_parts::{Part, are_kinds};
use rel_specs::{AggSpec, SetSpec};
use std::alloc::Global;
use sub_types::{NoMemory, Ty};

/// The most sets of groups.
const MAX_GROUPINGS: usize = 64;

/// The rows of an aggregate over rows of these types. Types of decimals that may not stand in a plan are `NoMemory`.
pub(crate) fn aggregate_parts(
    alloc: Global,
    spec: &AggSpec,
    types: &[Ty],
    parts: Vec<Part>,
) -> Result<Vec<Piece>, NoMemory>
    requires over { IsBreakerOver types.now (breakers.Aggregate spec.now) }
    requires given { HaveParts (breakers.Aggregate spec.now) types.now parts.items }
    ensures stream { IfOk result (λ out. (rows : Stream Row) → ArePartsOf (breakers.Aggregate spec.now) types.now rows parts.items → stream_of out.items ≡ aggregated_by spec.now rows) }
    ensures typed { IfOk result (λ out. All (λ piece. types_of piece.batch ≡ gathered_types (breakers.Aggregate spec.now) types.now) out.items) }
    ensures fit { IfOk result (λ out. All (λ piece. IsFit piece.batch) out.items) }
{
    if !are_kinds(types) {
        return Err(NoMemory);
    }
    let partials = partials_in(alloc, parts)?;
    let partial = merged_groups(alloc, spec, types, partials)?;
    let piece = partial.finals(spec)?;
    let out = one_piece(alloc, piece)?;
    Ok(out)
}

/// The same over several sets of groups. More than 64 are `NoMemory`: no plan has them.
pub(crate) fn group_parts(
    alloc: Global,
    spec: &SetSpec,
    types: &[Ty],
    parts: Vec<Part>,
) -> Result<Vec<Piece>, NoMemory>
    requires over { IsBreakerOver types.now (breakers.GroupSets spec.now) }
    requires given { HaveParts (breakers.GroupSets spec.now) types.now parts.items }
    ensures stream { IfOk result (λ out. (rows : Stream Row) → ArePartsOf (breakers.GroupSets spec.now) types.now rows parts.items → stream_of out.items ≡ grouped_by spec.now rows) }
    ensures typed { IfOk result (λ out. All (λ piece. types_of piece.batch ≡ gathered_types (breakers.GroupSets spec.now) types.now) out.items) }
    ensures fit { IfOk result (λ out. All (λ piece. IsFit piece.batch) out.items) }
{
    if !are_kinds(types) {
        return Err(NoMemory);
    }
    if spec.sets.len() > MAX_GROUPINGS {
        return Err(NoMemory);
    }
    let partials = set_partials_in(alloc, parts)?;
    let partial = merged_sets(alloc, spec, types, partials)?;
    let piece = partial.finals(spec)?;
    let out = one_piece(alloc, piece)?;
    Ok(out)
}
