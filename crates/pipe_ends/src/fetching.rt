// Pieces as they are, and fetches.
ghost use Rattle.std.specs.Prelude.{◌≡◌, All, IfOk};
ghost use Rattle.sub_types.specs.Stream.{Stream};
ghost use Rattle.batch.specs.BatchRows.{types_of};
ghost use Rattle.set_rels.specs.Inputs.{stream_of};
ghost use Rattle.plan_denote.specs.Fetch.{fetched};
ghost use Rattle.plan_denote.specs.Rows.{Row};
ghost use Rattle.plan_pipes.specs.declared.pipe.Breaker.TheVariants as breakers;
ghost use Rattle.pipe_steps.specs.Ready.{IsFit};
ghost use Rattle.pipe_parts.specs.Parts.{ArePartsOf, HaveParts};

use crate::ends::up_to_fault;
use crate::taking::pieces_in;
use batch::Piece;
use pipe_parts::Part;
use row_ops::fetch;
use std::alloc::Global;
use sub_types::{NoMemory, Ty};

/// The rows as they are.
pub(crate) fn all_pieces(
    alloc: Global,
    types: &[Ty],
    parts: Vec<Part>,
) -> Result<Vec<Piece>, NoMemory>
    requires given { HaveParts breakers.Gather types.now parts.items }
    ensures stream { IfOk result (λ out. (rows : Stream Row) → ArePartsOf breakers.Gather types.now rows parts.items → stream_of out.items ≡ rows) }
    ensures typed { IfOk result (λ out. All (λ piece. types_of piece.batch ≡ types.now) out.items) }
    ensures fit { IfOk result (λ out. All (λ piece. IsFit piece.batch) out.items) }
{
    let out = pieces_in(alloc, parts)?;
    Ok(out)
}

/// The rows from `offset` on: `count` at most, or all.
pub(crate) fn fetch_parts(
    alloc: Global,
    offset: u64,
    count: Option<u64>,
    types: &[Ty],
    parts: Vec<Part>,
) -> Result<Vec<Piece>, NoMemory>
    requires given { HaveParts (breakers.Fetch offset count) types.now parts.items }
    ensures stream { IfOk result (λ out. (rows : Stream Row) → ArePartsOf (breakers.Fetch offset count) types.now rows parts.items → stream_of out.items ≡ fetched offset count rows) }
    ensures typed { IfOk result (λ out. All (λ piece. types_of piece.batch ≡ types.now) out.items) }
    ensures fit { IfOk result (λ out. All (λ piece. IsFit piece.batch) out.items) }
{
    let pieces = pieces_in(alloc, parts)?;
    let out = fetch_pieces(alloc, offset, count, types, pieces)?;
    Ok(out)
}

// The same over pieces.
fn fetch_pieces(
    alloc: Global,
    offset: u64,
    count: Option<u64>,
    types: &[Ty],
    pieces: Vec<Piece>,
) -> Result<Vec<Piece>, NoMemory>
    requires typed { All (λ piece. types_of piece.batch ≡ types.now) pieces.items }
    requires fit { All (λ piece. IsFit piece.batch) pieces.items }
    ensures stream { IfOk result (λ out. stream_of out.items ≡ fetched offset count (stream_of pieces.items)) }
    ensures typed { IfOk result (λ out. All (λ piece. types_of piece.batch ≡ types.now) out.items) }
    ensures fit { IfOk result (λ out. All (λ piece. IsFit piece.batch) out.items) }
{
    let taken = fetch(alloc, offset, count, pieces)?;
    Ok(up_to_fault(taken))
}
