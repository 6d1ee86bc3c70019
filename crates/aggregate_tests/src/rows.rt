// Rows of two numbers, some of them null, and whether rows are the same.
ghost use Rattle.std.specs.Prelude.{◌≡◌, All, IfOk};
ghost use Rattle.sub_types.specs.Value.{FitsTy, Fits};
ghost use Rattle.batch.specs.BatchRows.{rows_of, types_of};
ghost use Rattle.aggregate_tests.specs.Typed.{number, numbers};

use crate::random::Random;
use batch::Batch;
use eval_values::is_same;
use plan_leaves::Items;
use row_batches::rows_to_batch;
use std::alloc::Global;
use sub_types::{Fault, FaultKind, Kind, NoMemory, Ty, Value};

/// A number, or none for a null.
pub(crate) type Number = Option<i64>;

pub(crate) const NUMBER: Ty = Ty {
    kind: Kind::I64,
    nullable: true,
};

/// Rows of two numbers, and the fault that ends them, if there is one.
#[derive(Drop)]
pub(crate) struct Part {
    pub(crate) pairs: Vec<[Number; 2]>,
    pub(crate) end: Option<Fault>,
}

/// Up to six rows of numbers from 0 to 2, with a null for one in four. One part in forty ends in a fault.
pub(crate) fn random_part(alloc: Global, random: &mut Random) -> Result<Part, NoMemory> {
    let mut pairs = Vec::new(alloc);
    let count = random.below(7);
    for _ in 0..count {
        let first = random_number(random);
        let second = random_number(random);
        pairs.push([first, second])?;
    }
    let end = random_end(random);
    Ok(Part { pairs, end })
}

fn random_number(random: &mut Random) -> Number {
    let number = random.below(4);
    if number == 3 {
        None
    } else {
        Some(number as i64)
    }
}

fn random_end(random: &mut Random) -> Option<Fault> {
    if random.below(40) == 0 {
        Some(Fault {
            relation: 3,
            kind: FaultKind::BadCast,
        })
    } else {
        None
    }
}

/// These rows.
pub(crate) fn part_of(alloc: Global, input: &[[Number; 2]]) -> Result<Part, NoMemory> {
    let pairs = Vec::from_slice(alloc, input)?;
    Ok(Part { pairs, end: None })
}

fn rows_in(alloc: Global, pairs: &[[Number; 2]]) -> Result<Items<Items<Value>>, NoMemory>
    ensures { IfOk result (λ rows. All (Fits numbers) rows) }
{
    let mut rows = Items::new(alloc);
    for pair in pairs {
        let row = row_of(alloc, pair[0], pair[1])?;
        rows.push(row)?;
    }
    Ok(rows)
}

fn row_of(alloc: Global, first: Number, second: Number) -> Result<Items<Value>, NoMemory>
    ensures { IfOk result (λ row. Fits numbers row) }
{
    let first = value_of(first);
    let second = value_of(second);
    let mut row = Items::new(alloc);
    row.push(first)?;
    row.push(second)?;
    Ok(row)
}

/// A number or a null as a value.
pub(crate) fn value_of(given: Number) -> Value
    ensures { FitsTy number result }
{
    match given {
        Some(number) => Value::Int(number),
        None => Value::Null,
    }
}

/// A batch of rows of two numbers.
pub(crate) fn batch_of(alloc: Global, pairs: &[[Number; 2]]) -> Result<Batch, NoMemory>
    ensures types { IfOk result (λ batch. types_of batch ≡ numbers) }
    ensures fit { IfOk result (λ batch. All (Fits numbers) (rows_of batch)) }
{
    let types = types(alloc)?;
    let rows = rows_in(alloc, pairs)?;
    let batch = rows_to_batch(alloc, types.as_slice(), rows.as_slice(), 0)?;
    Ok(batch)
}

fn types(alloc: Global) -> Result<Vec<Ty>, NoMemory>
    ensures { IfOk result (λ types. types.items ≡ numbers) }
{
    let mut types = Vec::new(alloc);
    types.push(NUMBER)?;
    types.push(NUMBER)?;
    Ok(types)
}

/// Adds rows.
pub(crate) fn push_rows(
    alloc: Global,
    pairs: &[[Number; 2]],
    rows: &mut Items<Items<Value>>,
) -> Result<(), NoMemory> {
    for pair in pairs {
        let row = row_of(alloc, pair[0], pair[1])?;
        rows.push(row)?;
    }
    Ok(())
}

/// The rows of a batch.
pub(crate) fn rows_of_batch(alloc: Global, batch: &Batch) -> Result<Items<Items<Value>>, NoMemory> {
    let mut rows = Items::new(alloc);
    for row in 0..batch.rows {
        let mut values = Items::new(alloc);
        for column in 0..batch.columns.len() {
            values.push(batch.value_at(alloc, column, row)?)?;
        }
        rows.push(values)?;
    }
    Ok(rows)
}

/// Whether two lists have the same rows in the same order.
pub(crate) fn are_same(rows: &[Items<Value>], others: &[Items<Value>]) -> bool {
    if rows.len() != others.len() {
        return false;
    }
    for i in 0..rows.len() {
        if !is_same_row(rows[i].as_slice(), others[i].as_slice()) {
            return false;
        }
    }
    true
}

fn is_same_row(row: &[Value], other: &[Value]) -> bool {
    if row.len() != other.len() {
        return false;
    }
    for i in 0..row.len() {
        if !is_same(&row[i], &other[i]) {
            return false;
        }
    }
    true
}
