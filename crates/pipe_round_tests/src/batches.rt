// Pieces of two columns of small numbers, some of them null.
ghost use Rattle.std.specs.Prelude.{◌≡◌, ◌<◌, ◌∷◌, [], IfOk};
ghost use Rattle.batch.specs.BatchRows.{types_of};

use crate::random::Random;
use crate::rows::Rows;
use batch::{Batch, Column, ColumnBuilder, Piece};
use plan_leaves::Items;
use std::alloc::Global;
use sub_types::{Fault, FaultKind, Kind, NoMemory, Ty, Value};

pub(crate) const NUMBER: Ty = Ty {
    kind: Kind::I64,
    nullable: true,
};

// Up to six rows, and for one piece in eight a fault behind them.
pub(crate) fn random_piece(alloc: Global, random: &mut Random) -> Result<Piece, NoMemory>
    ensures { IfOk result (λ piece. types_of piece.batch ≡ NUMBER ∷ NUMBER ∷ []) }
{
    let batch = random_batch(alloc, random)?;
    let end = random_end(random);
    Ok(Piece { batch, end })
}

fn random_end(random: &mut Random) -> Option<Fault> {
    if random.below(8) == 0 {
        Some(Fault {
            relation: random.below(100) as u32,
            kind: FaultKind::Overflow,
        })
    } else {
        None
    }
}

// A piece with the same rows and the same end.
pub(crate) fn copied(alloc: Global, piece: &Piece) -> Result<Piece, NoMemory>
    ensures { IfOk result (λ copy. types_of copy.batch ≡ types_of piece.now.batch) }
{
    let batch = piece.batch.slice(alloc, 0, piece.batch.rows)?;
    Ok(Piece {
        batch,
        end: piece.end,
    })
}

// Up to six rows.
fn random_batch(alloc: Global, random: &mut Random) -> Result<Batch, NoMemory>
    ensures { IfOk result (λ batch. types_of batch ≡ NUMBER ∷ NUMBER ∷ []) }
{
    let rows = random.below(7);
    let first = numbers(alloc, random, rows)?;
    let second = numbers(alloc, random, rows)?;
    batch_of(alloc, first, second)
}

// So many numbers from 0 to 2, and a null for one in four.
fn numbers(alloc: Global, random: &mut Random, rows: u64) -> Result<Column, NoMemory>
    ensures { IfOk result (λ column. column.ty ≡ NUMBER) }
{
    let mut builder = ColumnBuilder::new(alloc, NUMBER);
    for _ in 0..rows {
        let number = random.below(4) as i64;
        push_number(&mut builder, number)?;
    }
    Ok(builder.finish())
}

// Adds a number, and a null in place of 3.
fn push_number(builder: &mut ColumnBuilder, number: i64) -> Result<(), NoMemory>
    requires { builder.old.ty ≡ NUMBER }
    ensures { builder.new.ty ≡ builder.old.ty }
{
    if number == 3 {
        builder.push(&Value::Null)
    } else {
        builder.push(&Value::Int(number))
    }
}

// Rows of two numbers as one piece.
pub(crate) fn piece_of(alloc: Global, rows: &Rows) -> Result<Piece, NoMemory>
    ensures { IfOk result (λ piece. types_of piece.batch ≡ NUMBER ∷ NUMBER ∷ []) }
{
    let first = column_of(alloc, rows.rows.as_slice(), 0)?;
    let second = column_of(alloc, rows.rows.as_slice(), 1)?;
    let batch = batch_of(alloc, first, second)?;
    Ok(Piece {
        batch,
        end: rows.end,
    })
}

// The numbers at one place of each row.
fn column_of(alloc: Global, rows: &[Items<Value>], place: usize) -> Result<Column, NoMemory>
    ensures { IfOk result (λ column. column.ty ≡ NUMBER) }
{
    let mut builder = ColumnBuilder::new(alloc, NUMBER);
    for row in rows {
        push_at(&mut builder, row.as_slice(), place)?;
    }
    Ok(builder.finish())
}

// Adds the number or null at a place.
fn push_at(builder: &mut ColumnBuilder, row: &[Value], place: usize) -> Result<(), NoMemory>
    requires { builder.old.ty ≡ NUMBER }
    ensures { builder.new.ty ≡ builder.old.ty }
{
    if row.len() <= place {
        return Err(NoMemory);
    }
    match &row[place] {
        Value::Null => builder.push(&Value::Null),
        Value::Int(number) => {
            let number = *number;
            builder.push(&Value::Int(number))
        }
        _ => Err(NoMemory),
    }
}

// A batch of two columns, where they are as long as each other.
fn batch_of(alloc: Global, first: Column, second: Column) -> Result<Batch, NoMemory>
    ensures { IfOk result (λ batch. types_of batch ≡ first.ty ∷ second.ty ∷ []) }
{
    let rows = first.values.len();
    if second.values.len() != rows {
        return Err(NoMemory);
    }
    let mut columns = Vec::new(alloc);
    columns.push(first)?;
    columns.push(second)?;
    Ok(Batch {
        number: 0,
        rows: rows as u64,
        columns,
    })
}
