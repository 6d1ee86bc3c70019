// Where pieces end.
ghost use Rattle.std.specs.Prelude.{◌≡◌, ◌∷◌, [], take, All, IfOk};
ghost use Rattle.sub_types.specs.Stream.{ended};
ghost use Rattle.batch.specs.BatchRows.{rows_of, types_of};
ghost use Rattle.set_rels.specs.Inputs.{stream_of};
ghost use Rattle.pipe_steps.specs.Ready.{IsFit};
ghost use Rattle.pipe_ends.specs.Given as spec;
ghost use Rattle.pipe_ends.specs.Held as held;

use batch::{Batch, Piece, join_batches};
use pipe_parts::{Part, are_kinds};
use std::alloc::Global;
use sub_types::{Fault, NoMemory, Ty};

/// The fault of the first part that ends in one.
pub(crate) fn end_among(parts: &[Part]) -> Option<Fault>
    ensures { result ≡ held.end_among parts.now }
{
    for part in parts {
        let end = end_in(part);
        if end.is_some() {
            return end;
        }
    }
    None
}

fn end_in(part: &Part) -> Option<Fault>
    ensures { result ≡ held.end_in part.now }
{
    match part {
        Part::Rows(piece) => piece.end,
        Part::Built(_, end) => *end,
        Part::Groups(_) | Part::Sets(_) => None,
    }
}

/// No rows of these types, and this end: a piece without rows, or no piece where there is no fault. It is what a pipeline that builds
/// a table gathers. Types of decimals that stand in no plan are `NoMemory`.
pub fn ended_alone(alloc: Global, types: &[Ty], end: Option<Fault>) -> Result<Vec<Piece>, NoMemory>
    ensures stream { IfOk result (λ out. stream_of out.items ≡ ended end) }
    ensures typed { IfOk result (λ out. All (λ piece. types_of piece.batch ≡ types.now) out.items) }
    ensures fit { IfOk result (λ out. All (λ piece. IsFit piece.batch) out.items) }
{
    if end.is_none() {
        return Ok(Vec::new(alloc));
    }
    let batch = no_rows(alloc, types)?;
    let out = one_piece(alloc, Piece { batch, end })?;
    Ok(out)
}

// A batch of these types without rows.
fn no_rows(alloc: Global, types: &[Ty]) -> Result<Batch, NoMemory>
    ensures rows { IfOk result (λ batch. rows_of batch ≡ []) }
    ensures types { IfOk result (λ batch. types_of batch ≡ types.now) }
{
    if !are_kinds(types) {
        return Err(NoMemory);
    }
    join_batches(alloc, types, &[])
}

/// A piece alone.
pub(crate) fn one_piece(alloc: Global, piece: Piece) -> Result<Vec<Piece>, NoMemory>
    ensures { IfOk result (λ pieces. pieces.items ≡ piece ∷ []) }
{
    let mut pieces = Vec::new(alloc);
    pieces.push(piece)?;
    Ok(pieces)
}

/// The pieces up to the first that ends in a fault, that one included.
pub(crate) fn up_to_fault(pieces: Vec<Piece>) -> Vec<Piece>
    ensures { result.items ≡ spec.up_to_fault pieces.items }
{
    let mut kept = pieces;
    let count = count_to_fault(&kept);
    kept.truncate(count);
    kept
}

// How many they are.
fn count_to_fault(pieces: &[Piece]) -> usize
    ensures { take result pieces.now ≡ spec.up_to_fault pieces.now }
{
    for (place, piece) in pieces.iter().enumerate() {
        if piece.end.is_some() {
            return place + 1;
        }
    }
    pieces.len()
}
