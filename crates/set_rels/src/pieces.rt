// Inputs in pieces: their first fault, where each ends, and their batches.
ghost use Rattle.std.specs.Prelude.{◌≡◌, ◌+◌, None, length, map, All, IfOk, OnOk};
ghost use Rattle.std.specs.List.{flat_map};
ghost use Rattle.sub_types.specs.Stream.{rows_alone};
ghost use Rattle.plan_denote.specs.Sets.{first_fault as spec_first_fault};
ghost use Rattle.batch.specs.BatchRows.{rows_of, types_of, stream_of_piece};
ghost use Rattle.set_places.specs.Taken.{ends_from};
ghost use Rattle.set_rels.specs.Inputs.{stream_of, rows_in};

use batch::{Batch, Column, ColumnBuilder, Piece};
use std::alloc::Global;
use sub_types::{Fault, NoMemory, Ty};

/// The fault of the first input that ends in one.
pub(crate) fn first_fault(inputs: &[Vec<Piece>]) -> Option<Fault>
    ensures { result ≡ spec_first_fault (map (λ input. stream_of input.items) inputs.now) }
{
    for input in inputs {
        let end = end_of(input);
        if end.is_some() {
            return end;
        }
    }
    None
}

// The first fault of pieces.
fn end_of(pieces: &[Piece]) -> Option<Fault>
    ensures { result ≡ (stream_of pieces.now).end }
{
    for piece in pieces {
        if piece.end.is_some() {
            return piece.end;
        }
    }
    None
}

/// Where each input ends, as rows are numbered input after input.
pub(crate) fn ends_of(alloc: Global, inputs: &[Vec<Piece>]) -> Result<Vec<u64>, NoMemory>
    ensures { IfOk result (λ ends. ends.items ≡ ends_from 0 (map (λ input. rows_in input.items) inputs.now)) }
{
    let mut ends = Vec::new(alloc);
    let mut end = 0;
    for input in inputs {
        end = rows_to(end, input)?;
        ends.push(end)?;
    }
    Ok(ends)
}

// So many rows and those of pieces.
fn rows_to(from: u64, pieces: &[Piece]) -> Result<u64, NoMemory>
    ensures { IfOk result (λ end. end ≡ from + length (rows_in pieces.now)) }
{
    let mut end = from;
    for piece in pieces {
        let more = piece.batch.rows;
        if more > u64::MAX - end {
            return Err(NoMemory);
        }
        end += more;
    }
    Ok(end)
}

/// The batches of pieces.
pub(crate) fn batches_of(alloc: Global, pieces: Vec<Piece>) -> Result<Vec<Batch>, NoMemory>
    ensures { IfOk result (λ batches. batches.items ≡ map (λ piece. piece.batch) pieces.items) }
{
    let mut batches = Vec::with_capacity(alloc, pieces.len())?;
    for piece in pieces {
        batches.push(piece.batch)?;
    }
    Ok(batches)
}

/// Batches as pieces without a fault.
pub(crate) fn pieces_of(alloc: Global, batches: Vec<Batch>) -> Result<Vec<Piece>, NoMemory>
    ensures batches { IfOk result (λ pieces. map (λ piece. piece.batch) pieces.items ≡ batches.items) }
    ensures ends { IfOk result (λ pieces. All (λ piece. piece.end ≡ None) pieces.items) }
{
    let mut pieces = Vec::with_capacity(alloc, batches.len())?;
    for batch in batches {
        pieces.push(Piece { batch, end: None })?;
    }
    Ok(pieces)
}
