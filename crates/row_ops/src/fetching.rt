// The rows from an offset on, out of an input in pieces.
ghost use Rattle.std.specs.Prelude.{◌≡◌, ◌≤◌, IfOk, map};
ghost use Rattle.plan_denote.specs.Fetch.{fetched, end_of_window};
ghost use Rattle.plan_pipes.specs.FetchPieces.{offset_after, count_after, fetched_pieces};
ghost use Rattle.batch.specs.BatchRows.{stream_of_piece, types_of};
ghost use Rattle.row_ops.specs.Windows.{window_end, window_start};

use batch::Piece;
use std::alloc::Global;
use sub_types::{Fault, NoMemory};

/// The rows from `offset` on: `count` at most, or all. Each piece gives what is fetched from it; a fault behind the last row that was
/// asked for isn't given. What `fetch_of_pieces` says is then fetched of the whole input.
pub fn fetch(
    alloc: Global,
    offset: u64,
    count: Option<u64>,
    input: Vec<Piece>,
) -> Result<Vec<Piece>, NoMemory>
    ensures streams { IfOk result (λ pieces. map stream_of_piece pieces.items ≡ fetched_pieces offset count (map stream_of_piece input.items)) }
    ensures types { IfOk result (λ pieces. map (λ (piece : Piece). types_of piece.batch) pieces.items ≡ map (λ (piece : Piece). types_of piece.batch) input.items) }
{
    let mut pieces = Vec::with_capacity(alloc, input.len())?;
    let mut offset = offset;
    let mut count = count;
    for piece in input {
        let rows = piece.batch.rows;
        pieces.push(fetch_piece(alloc, offset, count, piece)?)?;
        count = count_left(offset, count, rows);
        offset = offset.saturating_sub(rows);
    }
    Ok(pieces)
}

// How many are still to be taken.
fn count_left(offset: u64, count: Option<u64>, rows: u64) -> Option<u64>
    ensures { result ≡ count_after offset count rows }
{
    count.map(|many| many.saturating_sub(rows.saturating_sub(offset)))
}

// What is fetched from one piece.
fn fetch_piece(
    alloc: Global,
    offset: u64,
    count: Option<u64>,
    piece: Piece,
) -> Result<Piece, NoMemory>
    ensures stream { IfOk result (λ fetched_piece. stream_of_piece fetched_piece ≡ fetched offset count (stream_of_piece piece)) }
    ensures types { IfOk result (λ fetched_piece. types_of fetched_piece.batch ≡ types_of piece.batch) }
{
    let Piece { batch, end } = piece;
    let end = end_of(offset, count, batch.rows, end);
    let from = start_of(offset, batch.rows);
    let to = end_from(from, count, batch.rows);
    if from == 0 && to == batch.rows {
        return Ok(Piece { batch, end });
    }
    let batch = batch.slice(alloc, from, to)?;
    Ok(Piece { batch, end })
}

// The end of what is fetched: none where the rows that are asked for are there.
fn end_of(offset: u64, count: Option<u64>, rows: u64, end: Option<Fault>) -> Option<Fault>
    ensures { result ≡ end_of_window offset count rows end }
{
    match count {
        Some(count) if offset <= rows && count <= rows - offset => None,
        _ => end,
    }
}

// The place of the first row that is fetched, or that behind the last row.
fn start_of(offset: u64, rows: u64) -> u64
    ensures { result ≡ window_start offset rows }
{
    if offset <= rows { offset } else { rows }
}

// The place behind the last row that is fetched, out of those from a place on.
fn end_from(from: u64, count: Option<u64>, rows: u64) -> u64
    requires { from ≤ rows }
    ensures { result ≡ window_end from count rows }
{
    match count {
        Some(count) if count <= rows - from => from + count,
        _ => rows,
    }
}
