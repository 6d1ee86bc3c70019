// Random set operations by both engines.
ghost use Rattle.std.specs.Prelude.{◌≡◌, ◌∷◌, [], All, IfOk, OnOk};
ghost use Rattle.batch.specs.BatchRows.{types_of};

use crate::drawn::{BINARY, NUMBER, batch_of, begins_with, draw_rows, row_list};
use crate::random::Random;
use batch::Piece;
use plan_leaves::Items;
use plan_typed::SetOp;
use row_sorts::set_rows;
use row_steps::{RowStream, Stream, glued};
use set_rels::set_op;
use std::alloc::Global;
use sub_types::{Fault, FaultKind, NoMemory};

/// Draws inputs and an operation, and says whether both engines give the same rows and end.
pub(crate) fn sets_alike(alloc: Global, random: &mut Random) -> Result<bool, NoMemory> {
    let op = draw_op(random);
    let mut inputs = Vec::new(alloc);
    let mut streams = Items::new(alloc);
    for _ in 0..random.below(3) + 2 {
        let mut pieces = Vec::new(alloc);
        streams.push(draw_input(alloc, random, &mut pieces)?)?;
        inputs.push(pieces)?;
    }
    let expected = set_rows(alloc, op, streams)?;
    let given = operated(alloc, op, inputs)?;
    is_stream(alloc, &given, &expected)
}

fn operated(alloc: Global, op: SetOp, inputs: Vec<Vec<Piece>>) -> Result<Vec<Piece>, NoMemory>
    requires { All (λ input. All (λ piece. types_of piece.batch ≡ NUMBER ∷ BINARY ∷ []) input.items) inputs.items }
{
    set_op(alloc, op, inputs, &[NUMBER, BINARY])
}

fn draw_op(random: &mut Random) -> SetOp {
    match random.below(7) {
        0 => SetOp::MinusPrimary,
        1 => SetOp::MinusPrimaryAll,
        2 => SetOp::IntersectionPrimary,
        3 => SetOp::IntersectionMultiset,
        4 => SetOp::IntersectionMultisetAll,
        5 => SetOp::UnionDistinct,
        _ => SetOp::UnionAll,
    }
}

// Draws the pieces of an input, of which one in twenty ends in a fault, and gives them as the row engine has them.
fn draw_input(
    alloc: Global,
    random: &mut Random,
    pieces: &mut Vec<Piece>,
) -> Result<RowStream, NoMemory>
    requires { All (λ piece. types_of piece.batch ≡ NUMBER ∷ BINARY ∷ []) pieces.old.items }
    ensures { OnOk result (All (λ piece. types_of piece.batch ≡ NUMBER ∷ BINARY ∷ []) pieces.new.items) }
{
    let mut streams = Items::new(alloc);
    for _ in 0..random.below(4) {
        let count = random.below(9);
        let rows = draw_rows(alloc, random, count)?;
        let end = draw_end(random);
        streams.push(Stream {
            rows: row_list(alloc, &rows)?,
            end,
        })?;
        pieces.push(Piece {
            batch: batch_of(alloc, &rows)?,
            end,
        })?;
    }
    glued(alloc, streams)
}

fn draw_end(random: &mut Random) -> Option<Fault> {
    if random.below(20) == 0 {
        return Some(Fault {
            relation: random.below(9) as u32,
            kind: FaultKind::DivideByZero,
        });
    }
    None
}

// Whether pieces have these rows and this end.
fn is_stream(alloc: Global, pieces: &[Piece], expected: &RowStream) -> Result<bool, NoMemory> {
    let rows = expected.rows.as_slice();
    let mut at = 0;
    for piece in pieces {
        if !begins_with(alloc, &rows[at..], &piece.batch)? {
            return Ok(false);
        }
        at += piece.batch.rows as usize;
        if piece.end.is_some() {
            return Ok(piece.end == expected.end && at == rows.len());
        }
    }
    Ok(expected.end.is_none() && at == rows.len())
}
