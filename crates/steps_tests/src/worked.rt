// The worked rows of `data/`: a step, its input in pieces, and what it gives.
ghost use Rattle.std.specs.Prelude.{◌≡◌, ◌<◌, ◌∷◌, [], All, IfOk};
ghost use Rattle.batch.specs.BatchRows.{types_of};
ghost use Rattle.steps_tests.specs.Typed.{IsOver};

use crate::batches::{NUMBER, batch_of, numbers};
use crate::named::{condition_of, number_of};
use crate::steps::{filtered_pieces, kept_pieces, projected_pieces, stream_of_all};
use crate::text::text_of;
use anyhow::{Context, Result, bail};
use batch::{Batch, Piece};
use plan_typed::Expr;
use row_ops::fetch;
use std::alloc::Global;
use sub_types::{Fault, FaultKind, NoMemory};

/// Whether a step gives what its row says.
pub(crate) fn holds(alloc: Global, line: &str) -> Result<bool> {
    let (step, rest) = line.split_once(": ").context("no step")?;
    let (input, expected) = rest.split_once(" = ").context("no answer")?;
    let text = text_after(alloc, step, input)?;
    Ok(text.as_str() == expected)
}

// What the step gives of the pieces.
fn text_after(alloc: Global, step: &str, input: &str) -> Result<String> {
    let given = stepped(alloc, step, pieces_of(alloc, input)?)?;
    text_of_pieces(alloc, &given)
}

fn text_of_pieces(alloc: Global, pieces: &[Piece]) -> Result<String> {
    let stream = stream_of_all(alloc, pieces)?;
    text_of(alloc, &stream)
}

fn stepped(alloc: Global, step: &str, pieces: Vec<Piece>) -> Result<Vec<Piece>>
    requires { All (λ piece. types_of piece.batch ≡ NUMBER ∷ NUMBER ∷ []) pieces.items }
{
    let (name, what) = step.split_once(' ').context("no such step")?;
    match name {
        "filter" => filtered(alloc, what, pieces),
        "project" => projected(alloc, what, pieces),
        "keep" => kept(alloc, what, pieces),
        "fetch" => fetched(alloc, what, pieces),
        _ => bail!("no such step"),
    }
}

fn filtered(alloc: Global, what: &str, pieces: Vec<Piece>) -> Result<Vec<Piece>>
    requires { All (λ piece. types_of piece.batch ≡ NUMBER ∷ NUMBER ∷ []) pieces.items }
{
    let condition = condition_of(alloc, what)?;
    Ok(filtered_pieces(alloc, &condition, pieces)?)
}

fn projected(alloc: Global, what: &str, pieces: Vec<Piece>) -> Result<Vec<Piece>>
    requires { All (λ piece. types_of piece.batch ≡ NUMBER ∷ NUMBER ∷ []) pieces.items }
{
    let exprs = exprs_of(alloc, what)?;
    Ok(projected_pieces(alloc, &exprs, pieces)?)
}

fn kept(alloc: Global, what: &str, pieces: Vec<Piece>) -> Result<Vec<Piece>>
    requires { All (λ piece. types_of piece.batch ≡ NUMBER ∷ NUMBER ∷ []) pieces.items }
{
    let columns = columns_of(alloc, what)?;
    Ok(kept_pieces(alloc, &columns, pieces)?)
}

// The rows from a place on, so many or all.
fn fetched(alloc: Global, what: &str, pieces: Vec<Piece>) -> Result<Vec<Piece>> {
    let (offset, count) = what.split_once(' ').context("no count")?;
    let offset: u64 = offset.parse()?;
    let count = count_of(count)?;
    Ok(fetch(alloc, offset, count, pieces)?)
}

fn count_of(text: &str) -> Result<Option<u64>> {
    match text {
        "all" => Ok(None),
        _ => Ok(Some(text.parse()?)),
    }
}

fn exprs_of(alloc: Global, text: &str) -> Result<Vec<Expr>>
    ensures { IfOk result (λ exprs. All (IsOver NUMBER) exprs.items) }
{
    let mut exprs = Vec::new(alloc);
    for word in text.split(' ') {
        exprs.push(number_of(alloc, word)?)?;
    }
    Ok(exprs)
}

fn columns_of(alloc: Global, text: &str) -> Result<Vec<u32>>
    ensures { IfOk result (λ columns. All (λ column. column < 2) columns.items) }
{
    let mut columns = Vec::new(alloc);
    for word in text.split(' ') {
        columns.push(column_of(word)?)?;
    }
    Ok(columns)
}

fn column_of(word: &str) -> Result<u32>
    ensures { IfOk result (λ column. column < 2) }
{
    match word {
        "0" => Ok(0),
        "1" => Ok(1),
        _ => bail!("no such column"),
    }
}

// Pieces with `/` between them.
fn pieces_of(alloc: Global, text: &str) -> Result<Vec<Piece>>
    ensures { IfOk result (λ pieces. All (λ piece. types_of piece.batch ≡ NUMBER ∷ NUMBER ∷ []) pieces.items) }
{
    let mut pieces = Vec::new(alloc);
    for part in text.split('/') {
        pieces.push(piece_of(alloc, part)?)?;
    }
    Ok(pieces)
}

// Rows, and `!` before the fault that ends them, if there is one.
fn piece_of(alloc: Global, text: &str) -> Result<Piece>
    ensures { IfOk result (λ piece. types_of piece.batch ≡ NUMBER ∷ NUMBER ∷ []) }
{
    let (rows, end) = match text.split_once('!') {
        Some((rows, fault)) => (rows, Some(fault_of(fault)?)),
        None => (text, None),
    };
    let batch = batch_in(alloc, rows)?;
    Ok(Piece { batch, end })
}

// Rows with `|` between them.
fn batch_in(alloc: Global, rows: &str) -> Result<Batch>
    ensures { IfOk result (λ batch. types_of batch ≡ NUMBER ∷ NUMBER ∷ []) }
{
    let (first, second) = values_of(alloc, rows)?;
    Ok(batch_of_values(alloc, &first, &second)?)
}

fn batch_of_values(
    alloc: Global,
    first: &[Option<i64>],
    second: &[Option<i64>],
) -> Result<Batch, NoMemory>
    ensures { IfOk result (λ batch. types_of batch ≡ NUMBER ∷ NUMBER ∷ []) }
{
    let first = numbers(alloc, first)?;
    let second = numbers(alloc, second)?;
    batch_of(alloc, first, second)
}

fn fault_of(text: &str) -> Result<Fault> {
    let (relation, kind) = text.split_once(':').context("no fault")?;
    let kind = match kind {
        "DivideByZero" => FaultKind::DivideByZero,
        "Overflow" => FaultKind::Overflow,
        _ => bail!("no such fault"),
    };
    let relation: u32 = relation.parse()?;
    Ok(Fault { relation, kind })
}

// The values of both columns in rows with `|` between them.
fn values_of(alloc: Global, rows: &str) -> Result<(Vec<Option<i64>>, Vec<Option<i64>>)> {
    let mut first = Vec::new(alloc);
    let mut second = Vec::new(alloc);
    if !rows.is_empty() {
        push_values(rows, &mut first, &mut second)?;
    }
    Ok((first, second))
}

fn push_values(
    rows: &str,
    first: &mut Vec<Option<i64>>,
    second: &mut Vec<Option<i64>>,
) -> Result<()> {
    for row in rows.split('|') {
        let (one, other) = row.split_once(',').context("no row")?;
        first.push(value_of(one)?)?;
        second.push(value_of(other)?)?;
    }
    Ok(())
}

fn value_of(text: &str) -> Result<Option<i64>> {
    match text {
        "null" => Ok(None),
        _ => Ok(Some(text.parse()?)),
    }
}
