// Random steps, each beside the row engine's.
ghost use Rattle.std.specs.Prelude.{◌≡◌, ◌<◌, ◌∷◌, [], All, IfOk};
ghost use Rattle.batch.specs.BatchRows.{types_of};
ghost use Rattle.steps_tests.specs.Typed.{IsOver};

use crate::batches::{NUMBER, random_pieces};
use crate::calls::TRUTH;
use crate::exprs::{random_condition, random_numbers};
use crate::random::Random;
use crate::rows::are_same;
use crate::steps::{RELATION, filtered_pieces, kept_pieces, projected_pieces, stream_of_all};
use batch::Piece;
use plan_typed::Expr;
use row_ops::fetch;
use row_steps::{RowStream, emitted, fetched, filtered, projected};
use std::alloc::Global;
use sub_types::NoMemory;

pub(crate) fn filters_agree(alloc: Global, random: &mut Random) -> Result<bool, NoMemory> {
    let condition = random_condition(alloc, random)?;
    filter_agrees(alloc, &condition, random_pieces(alloc, random)?)
}

fn filter_agrees(alloc: Global, condition: &Expr, pieces: Vec<Piece>) -> Result<bool, NoMemory>
    requires condition { IsOver TRUTH condition.now }
    requires types { All (λ piece. types_of piece.batch ≡ NUMBER ∷ NUMBER ∷ []) pieces.items }
{
    let expected = filtered(alloc, RELATION, condition, stream_of_all(alloc, &pieces)?)?;
    is_stream(alloc, filtered_pieces(alloc, condition, pieces)?, &expected)
}

pub(crate) fn projections_agree(alloc: Global, random: &mut Random) -> Result<bool, NoMemory> {
    let exprs = random_numbers(alloc, random)?;
    projection_agrees(alloc, &exprs, random_pieces(alloc, random)?)
}

fn projection_agrees(alloc: Global, exprs: &[Expr], pieces: Vec<Piece>) -> Result<bool, NoMemory>
    requires exprs { All (IsOver NUMBER) exprs.now }
    requires types { All (λ piece. types_of piece.batch ≡ NUMBER ∷ NUMBER ∷ []) pieces.items }
{
    let expected = projected(alloc, RELATION, exprs, stream_of_all(alloc, &pieces)?)?;
    is_stream(alloc, projected_pieces(alloc, exprs, pieces)?, &expected)
}

pub(crate) fn kept_columns_agree(alloc: Global, random: &mut Random) -> Result<bool, NoMemory> {
    let columns = random_columns(alloc, random)?;
    kept_agree(alloc, &columns, random_pieces(alloc, random)?)
}

fn kept_agree(alloc: Global, columns: &[u32], pieces: Vec<Piece>) -> Result<bool, NoMemory>
    requires columns { All (λ column. column < 2) columns.now }
    requires types { All (λ piece. types_of piece.batch ≡ NUMBER ∷ NUMBER ∷ []) pieces.items }
{
    let expected = emitted(alloc, columns, stream_of_all(alloc, &pieces)?)?;
    is_stream(alloc, kept_pieces(alloc, columns, pieces)?, &expected)
}

// Up to three of the two columns, in any order.
fn random_columns(alloc: Global, random: &mut Random) -> Result<Vec<u32>, NoMemory>
    ensures { IfOk result (λ columns. All (λ column. column < 2) columns.items) }
{
    let mut columns = Vec::new(alloc);
    for _ in 0..random.below(4) {
        columns.push(random.below(2) as u32)?;
    }
    Ok(columns)
}

pub(crate) fn fetches_agree(alloc: Global, random: &mut Random) -> Result<bool, NoMemory> {
    let offset = random.below(9);
    let count = random_count(random);
    let pieces = random_pieces(alloc, random)?;
    let expected = fetched(offset, count, stream_of_all(alloc, &pieces)?);
    is_stream(alloc, fetch(alloc, offset, count, pieces)?, &expected)
}

fn random_count(random: &mut Random) -> Option<u64> {
    match random.below(10) {
        9 => None,
        count => Some(count),
    }
}

// Whether pieces have these rows and this end.
fn is_stream(alloc: Global, pieces: Vec<Piece>, expected: &RowStream) -> Result<bool, NoMemory> {
    let given = stream_of_all(alloc, &pieces)?;
    Ok(given.end == expected.end && are_same(given.rows.as_slice(), expected.rows.as_slice()))
}
