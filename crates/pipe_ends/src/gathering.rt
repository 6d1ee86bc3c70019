// What a pipeline gathers of what is kept of its pieces.
ghost use Rattle.std.specs.Prelude.{◌≡◌, All, IfOk};
ghost use Rattle.sub_types.specs.Stream.{Stream};
ghost use Rattle.batch.specs.BatchRows.{types_of};
ghost use Rattle.set_rels.specs.Inputs.{stream_of};
ghost use Rattle.plan_denote.specs.Rows.{Row};
ghost use Rattle.plan_pipes.specs.RowMeaning.{gathered};
ghost use Rattle.pipe_types.specs.Exact.{gathered_types};
ghost use Rattle.pipe_types.specs.Over.{IsBreakerOver};
ghost use Rattle.pipe_steps.specs.Ready.{IsFit};
ghost use Rattle.pipe_parts.specs.Parts.{ArePartsOf, HaveParts};

use crate::fetching::{all_pieces, fetch_parts};
use crate::grouping::{aggregate_parts, group_parts};
use crate::sorting::sort_parts;
use crate::tables::right_end;
use batch::Piece;
use pipe_parts::Part;
use plan_pipes::Breaker;
use std::alloc::Global;
use sub_types::{NoMemory, Ty};

/// What the breaker gathers of a pipeline's rows, by what is kept of its pieces in order, whose columns are stored with these types.
/// Where it builds a table, that is their end alone. Types of decimals that stand in no plan are `NoMemory` where rows are to be
/// grouped or where none are left, and so are more than 64 sets of groups: no checked plan has them.
pub fn gather(
    alloc: Global,
    breaker: &Breaker,
    types: &[Ty],
    parts: Vec<Part>,
) -> Result<Vec<Piece>, NoMemory>
    requires over { IsBreakerOver types.now breaker.now }
    requires given { HaveParts breaker.now types.now parts.items }
    ensures stream { IfOk result (λ out. (rows : Stream Row) → ArePartsOf breaker.now types.now rows parts.items → stream_of out.items ≡ gathered breaker.now rows) }
    ensures typed { IfOk result (λ out. All (λ piece. types_of piece.batch ≡ gathered_types breaker.now types.now) out.items) }
    ensures fit { IfOk result (λ out. All (λ piece. IsFit piece.batch) out.items) }
{
    match breaker {
        Breaker::Gather => all_pieces(alloc, types, parts),
        Breaker::Fetch { offset, count } => fetch_parts(alloc, *offset, *count, types, parts),
        Breaker::Aggregate(spec) => aggregate_parts(alloc, spec, types, parts),
        Breaker::Sort(keys) => sort_parts(alloc, keys.as_slice(), types, parts),
        Breaker::Build(join) => right_end(alloc, join, types, &parts),
        Breaker::GroupSets(spec) => group_parts(alloc, spec, types, parts),
    }
}
