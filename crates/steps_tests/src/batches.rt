// Pieces of two columns of small numbers, some of them null.
ghost use Rattle.std.specs.Prelude.{◌≡◌, ◌∷◌, [], All, IfOk};
ghost use Rattle.batch.specs.BatchRows.{types_of};

use crate::random::Random;
use batch::{Batch, Column, ColumnBuilder, Piece};
use std::alloc::Global;
use sub_types::{Fault, FaultKind, Kind, NoMemory, Ty, Value};

pub(crate) const NUMBER: Ty = Ty {
    kind: Kind::I64,
    nullable: true,
};

// Up to three pieces, of which one in eight ends in a fault.
pub(crate) fn random_pieces(alloc: Global, random: &mut Random) -> Result<Vec<Piece>, NoMemory>
    ensures { IfOk result (λ pieces. All (λ piece. types_of piece.batch ≡ NUMBER ∷ NUMBER ∷ []) pieces.items) }
{
    let mut pieces = Vec::new(alloc);
    for _ in 0..random.below(4) {
        pieces.push(random_piece(alloc, random)?)?;
    }
    Ok(pieces)
}

fn random_piece(alloc: Global, random: &mut Random) -> Result<Piece, NoMemory>
    ensures { IfOk result (λ piece. types_of piece.batch ≡ NUMBER ∷ NUMBER ∷ []) }
{
    let rows = random.below(7);
    let first = random_numbers(alloc, random, rows)?;
    let second = random_numbers(alloc, random, rows)?;
    let batch = batch_of(alloc, first, second)?;
    let end = random_end(random);
    Ok(Piece { batch, end })
}

fn random_end(random: &mut Random) -> Option<Fault> {
    if random.below(8) == 0 {
        return Some(Fault {
            relation: random.below(5) as u32,
            kind: FaultKind::Overflow,
        });
    }
    None
}

// So many numbers from 0 to 3, and a null for one in five.
fn random_numbers(alloc: Global, random: &mut Random, rows: u64) -> Result<Column, NoMemory>
    ensures { IfOk result (λ column. column.ty ≡ NUMBER) }
{
    let mut builder = ColumnBuilder::new(alloc, NUMBER);
    push_random_numbers(&mut builder, random, rows)?;
    Ok(builder.finish())
}

fn push_random_numbers(
    builder: &mut ColumnBuilder,
    random: &mut Random,
    rows: u64,
) -> Result<(), NoMemory>
    requires { builder.old.ty ≡ NUMBER }
    ensures { builder.new.ty ≡ builder.old.ty }
{
    for _ in 0..rows {
        let number = random.below(5) as i64;
        push_number(builder, if number == 4 { None } else { Some(number) })?;
    }
    Ok(())
}

// A column of these numbers.
pub(crate) fn numbers(alloc: Global, values: &[Option<i64>]) -> Result<Column, NoMemory>
    ensures { IfOk result (λ column. column.ty ≡ NUMBER) }
{
    let mut builder = ColumnBuilder::new(alloc, NUMBER);
    push_numbers(&mut builder, values)?;
    Ok(builder.finish())
}

fn push_numbers(builder: &mut ColumnBuilder, values: &[Option<i64>]) -> Result<(), NoMemory>
    requires { builder.old.ty ≡ NUMBER }
    ensures { builder.new.ty ≡ builder.old.ty }
{
    for value in values {
        push_number(builder, *value)?;
    }
    Ok(())
}

fn push_number(builder: &mut ColumnBuilder, number: Option<i64>) -> Result<(), NoMemory>
    requires { builder.old.ty ≡ NUMBER }
    ensures { builder.new.ty ≡ builder.old.ty }
{
    match number {
        Some(number) => builder.push(&Value::Int(number)),
        None => builder.push(&Value::Null),
    }
}

// A batch of two columns, where they are as long as each other.
pub(crate) fn batch_of(alloc: Global, first: Column, second: Column) -> Result<Batch, NoMemory>
    ensures { IfOk result (λ batch. types_of batch ≡ first.ty ∷ second.ty ∷ []) }
{
    let rows = first.values.len();
    if second.values.len() != rows {
        return Err(NoMemory);
    }
    let columns = vec![in alloc; first, second]?;
    Ok(Batch {
        number: 0,
        rows: rows as u64,
        columns,
    })
}
