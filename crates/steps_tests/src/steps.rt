// Each step over pieces: what it gives of each, one after the other, is what the row engine gives of all their rows.
ghost use Rattle.std.specs.Prelude.{◌≡◌, ◌<◌, ◌∷◌, [], All};
ghost use Rattle.batch.specs.BatchRows.{types_of};
ghost use Rattle.steps_tests.specs.Typed.{IsOver};

use crate::batches::NUMBER;
use crate::calls::TRUTH;
use crate::rows::push_rows;
use batch::Piece;
use plan_leaves::Items;
use plan_typed::Expr;
use row_ops::{filter, keep, project};
use row_steps::{RowStream, Stream, glued};
use std::alloc::Global;
use sub_types::NoMemory;

/// The number of the step's relation.
pub(crate) const RELATION: u32 = 7;

/// The rows of a piece, and its end.
pub(crate) fn stream_of(alloc: Global, piece: &Piece) -> Result<RowStream, NoMemory> {
    let mut rows = Items::new(alloc);
    push_rows(alloc, &piece.batch, &mut rows)?;
    Ok(Stream {
        rows,
        end: piece.end,
    })
}

/// The rows of pieces, up to the first fault.
pub(crate) fn stream_of_all(alloc: Global, pieces: &[Piece]) -> Result<RowStream, NoMemory> {
    let mut streams = Items::new(alloc);
    for piece in pieces {
        streams.push(stream_of(alloc, piece)?)?;
    }
    glued(alloc, streams)
}

/// What a filter gives of pieces.
pub(crate) fn filtered_pieces(
    alloc: Global,
    condition: &Expr,
    pieces: Vec<Piece>,
) -> Result<Vec<Piece>, NoMemory>
    requires condition { IsOver TRUTH condition.now }
    requires types { All (λ piece. types_of piece.batch ≡ NUMBER ∷ NUMBER ∷ []) pieces.items }
{
    let mut given = Vec::new(alloc);
    for piece in pieces {
        given.push(filtered_piece(alloc, condition, piece)?)?;
    }
    Ok(given)
}

fn filtered_piece(alloc: Global, condition: &Expr, piece: Piece) -> Result<Piece, NoMemory>
    requires condition { IsOver TRUTH condition.now }
    requires types { types_of piece.batch ≡ NUMBER ∷ NUMBER ∷ [] }
{
    filter(alloc, condition, RELATION, piece)
}

/// What a projection gives of pieces.
pub(crate) fn projected_pieces(
    alloc: Global,
    exprs: &[Expr],
    pieces: Vec<Piece>,
) -> Result<Vec<Piece>, NoMemory>
    requires exprs { All (IsOver NUMBER) exprs.now }
    requires types { All (λ piece. types_of piece.batch ≡ NUMBER ∷ NUMBER ∷ []) pieces.items }
{
    let mut given = Vec::new(alloc);
    for piece in pieces {
        given.push(projected_piece(alloc, exprs, piece)?)?;
    }
    Ok(given)
}

fn projected_piece(alloc: Global, exprs: &[Expr], piece: Piece) -> Result<Piece, NoMemory>
    requires exprs { All (IsOver NUMBER) exprs.now }
    requires types { types_of piece.batch ≡ NUMBER ∷ NUMBER ∷ [] }
{
    project(alloc, exprs, RELATION, piece)
}

/// These columns of pieces.
pub(crate) fn kept_pieces(
    alloc: Global,
    columns: &[u32],
    pieces: Vec<Piece>,
) -> Result<Vec<Piece>, NoMemory>
    requires columns { All (λ column. column < 2) columns.now }
    requires types { All (λ piece. types_of piece.batch ≡ NUMBER ∷ NUMBER ∷ []) pieces.items }
{
    let mut given = Vec::new(alloc);
    for piece in pieces {
        given.push(kept_piece(alloc, columns, piece)?)?;
    }
    Ok(given)
}

fn kept_piece(alloc: Global, columns: &[u32], piece: Piece) -> Result<Piece, NoMemory>
    requires columns { All (λ column. column < 2) columns.now }
    requires types { types_of piece.batch ≡ NUMBER ∷ NUMBER ∷ [] }
{
    keep(alloc, columns, piece)
}
