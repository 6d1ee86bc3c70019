// The worked rows of `data/`: set operations over one column of numbers, with what they give.
ghost use Rattle.std.specs.Prelude.{◌≡◌, ◌∷◌, [], All, IfOk};
ghost use Rattle.batch.specs.BatchRows.{types_of};

use crate::columns::{NUMBER, numbers, one_column};
use anyhow::{Context, Result, bail};
use batch::Piece;
use plan_typed::SetOp;
use set_rels::set_op;
use std::alloc::Global;
use sub_types::{Fault, FaultKind, NoMemory, Value};

/// Whether a set operation gives what its row says.
pub(crate) fn set_holds(alloc: Global, line: &str) -> Result<bool> {
    let (name, rest) = line.split_once(": ").context("no operation")?;
    let (inputs, expected) = rest.split_once(" = ").context("no answer")?;
    let op = op_of(name)?;
    let inputs = inputs_of(alloc, inputs)?;
    let given = operated(alloc, op, inputs)?;
    let text = text_of(alloc, &given)?;
    Ok(text.as_str() == expected)
}

fn operated(alloc: Global, op: SetOp, inputs: Vec<Vec<Piece>>) -> Result<Vec<Piece>, NoMemory>
    requires { All (λ input. All (λ piece. types_of piece.batch ≡ NUMBER ∷ []) input.items) inputs.items }
{
    set_op(alloc, op, inputs, &[NUMBER])
}

fn op_of(name: &str) -> Result<SetOp> {
    match name {
        "MINUS_PRIMARY" => Ok(SetOp::MinusPrimary),
        "MINUS_PRIMARY_ALL" => Ok(SetOp::MinusPrimaryAll),
        "INTERSECTION_PRIMARY" => Ok(SetOp::IntersectionPrimary),
        "INTERSECTION_MULTISET" => Ok(SetOp::IntersectionMultiset),
        "INTERSECTION_MULTISET_ALL" => Ok(SetOp::IntersectionMultisetAll),
        "UNION_DISTINCT" => Ok(SetOp::UnionDistinct),
        "UNION_ALL" => Ok(SetOp::UnionAll),
        _ => bail!("no such operation"),
    }
}

// Inputs with `/` between them, each in one piece.
fn inputs_of(alloc: Global, text: &str) -> Result<Vec<Vec<Piece>>>
    ensures { IfOk result (λ inputs. All (λ input. All (λ piece. types_of piece.batch ≡ NUMBER ∷ []) input.items) inputs.items) }
{
    let mut inputs = Vec::new(alloc);
    for part in text.split('/') {
        inputs.push(input_of(alloc, part)?)?;
    }
    Ok(inputs)
}

fn input_of(alloc: Global, text: &str) -> Result<Vec<Piece>>
    ensures { IfOk result (λ pieces. All (λ piece. types_of piece.batch ≡ NUMBER ∷ []) pieces.items) }
{
    let mut pieces = Vec::new(alloc);
    pieces.push(piece_of(alloc, text)?)?;
    Ok(pieces)
}

// Numbers, and behind `!` the fault that ends them, if there is one.
fn piece_of(alloc: Global, text: &str) -> Result<Piece>
    ensures { IfOk result (λ piece. types_of piece.batch ≡ NUMBER ∷ []) }
{
    let (rows, end) = match text.split_once('!') {
        Some((rows, fault)) => (rows, Some(fault_of(fault)?)),
        None => (text, None),
    };
    let values = values_of(alloc, rows)?;
    let column = numbers(alloc, &values)?;
    let batch = one_column(alloc, column)?;
    Ok(Piece { batch, end })
}

fn fault_of(text: &str) -> Result<Fault> {
    match text {
        "DivideByZero" => Ok(Fault {
            relation: 3,
            kind: FaultKind::DivideByZero,
        }),
        _ => bail!("no such fault"),
    }
}

fn values_of(alloc: Global, rows: &str) -> Result<Vec<Option<i64>>> {
    let mut values = Vec::new(alloc);
    if !rows.is_empty() {
        for word in rows.split(',') {
            values.push(value_of(word)?)?;
        }
    }
    Ok(values)
}

pub(crate) fn value_of(text: &str) -> Result<Option<i64>> {
    match text {
        "null" => Ok(None),
        _ => Ok(Some(text.parse()?)),
    }
}

// The numbers of pieces, and behind `!` the fault that ends them, if there is one; `none` for neither.
fn text_of(alloc: Global, pieces: &[Piece]) -> Result<String> {
    let mut text = String::new(alloc);
    for piece in pieces {
        push_piece(alloc, &mut text, piece)?;
    }
    if text.is_empty() {
        text.push_str("none")?;
    }
    Ok(text)
}

fn push_piece(alloc: Global, text: &mut String, piece: &Piece) -> Result<()> {
    if piece.batch.columns.len() != 1 {
        bail!("not one column");
    }
    for row in 0..piece.batch.rows {
        if !text.is_empty() {
            text.push(',')?;
        }
        push_value(alloc, text, &piece.batch.value_at(alloc, 0, row)?)?;
    }
    if let Some(fault) = &piece.end {
        let kind = fault.kind;
        text.push_str(format!(in alloc; "!{kind:?}")?.as_str())?;
    }
    Ok(())
}

fn push_value(alloc: Global, text: &mut String, value: &Value) -> Result<()> {
    match value {
        Value::Int(number) => text.push_str(format!(in alloc; "{number}")?.as_str())?,
        Value::Null => text.push_str("null")?,
        _ => bail!("no number"),
    }
    Ok(())
}
