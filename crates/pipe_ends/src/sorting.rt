// Sorts.
ghost use Rattle.std.specs.Prelude.{◌≡◌, map, length, All, IfOk};
ghost use Rattle.sub_types.specs.Stream.{Stream};
ghost use Rattle.well_typed.specs.WellTyped.{AreBelow};
ghost use Rattle.std.specs.List.{flat_map};
ghost use Rattle.batch.specs.BatchRows.{rows_of, types_of};
ghost use Rattle.set_rels.specs.Inputs.{stream_of};
ghost use Rattle.plan_denote.specs.Rows.{Row};
ghost use Rattle.plan_pipes.specs.RowMeaning.{sorted_by};
ghost use Rattle.plan_pipes.specs.declared.pipe.Breaker.TheVariants as breakers;
ghost use Rattle.sort_merge.specs.RowOrder.{in_order};
ghost use Rattle.pipe_steps.specs.Ready.{IsFit};
ghost use Rattle.pipe_parts.specs.Parts.{ArePartsOf, HaveParts};

use crate::ends::{end_among, ended_alone};
use crate::rows::{batches_of, pieces_of};
use crate::taking::pieces_in;
use batch::{Batch, Piece};
use pipe_parts::Part;
use rel_specs::KeyOrder;
use sort_merge::interleave;
use std::alloc::Global;
use sub_types::{NoMemory, Ty};

/// The rows in order of these columns, of parts that are each in order.
pub(crate) fn sort_parts(
    alloc: Global,
    keys: &[KeyOrder],
    types: &[Ty],
    parts: Vec<Part>,
) -> Result<Vec<Piece>, NoMemory>
    requires columns { AreBelow (length types.now) (map (λ key. key.column) keys.now) }
    requires given { HaveParts (breakers.Sort keys.now) types.now parts.items }
    ensures stream { IfOk result (λ out. (rows : Stream Row) → ArePartsOf (breakers.Sort keys.now) types.now rows parts.items → stream_of out.items ≡ sorted_by keys.now rows) }
    ensures typed { IfOk result (λ out. All (λ piece. types_of piece.batch ≡ types.now) out.items) }
    ensures fit { IfOk result (λ out. All (λ piece. IsFit piece.batch) out.items) }
{
    let end = end_among(&parts);
    if end.is_some() {
        let alone = ended_alone(alloc, types, end)?;
        return Ok(alone);
    }
    let pieces = pieces_in(alloc, parts)?;
    let runs = batches_of(alloc, pieces)?;
    let batches = merged(alloc, keys, types, runs)?;
    let out = pieces_of(alloc, batches)?;
    Ok(out)
}

// The rows of all runs in order.
fn merged(
    alloc: Global,
    keys: &[KeyOrder],
    types: &[Ty],
    runs: Vec<Batch>,
) -> Result<Vec<Batch>, NoMemory>
    requires columns { AreBelow (length types.now) (map (λ key. key.column) keys.now) }
    requires typed { All (λ run. types_of run ≡ types.now) runs.items }
    ensures rows { IfOk result (λ batches. flat_map rows_of batches.items ≡ in_order keys.now (flat_map rows_of runs.items)) }
    ensures types { IfOk result (λ batches. All (λ batch. types_of batch ≡ types.now) batches.items) }
{
    if runs.is_empty() {
        return Ok(runs);
    }
    interleave(alloc, keys, runs)
}
