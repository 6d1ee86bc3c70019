// Parts of columns that begin at each place of a byte and past it, against the column's values one by one.
ghost use Rattle.std.specs.Prelude.{◌≡◌, IfOk};
ghost use Rattle.sub_types.specs.Kind.{IsKind};
ghost use Rattle.sub_types.specs.Value.{InKind};

use crate::places::are_below;
use batch::{Batch, Column, ColumnBuilder, ColumnView, DataView};
use std::alloc::Global;
use sub_types::{ByteList, Kind, NoMemory, Ty, Value};

const ROWS: usize = 75;

// The value of a row of a column of truth values, whole numbers or binaries.
fn value_of(alloc: Global, kind: Kind, row: usize) -> Result<Value, NoMemory>
    ensures { IfOk result (λ value. InKind kind value) }
{
    match kind {
        Kind::Bool => Ok(Value::Bool(row % 5 < 2)),
        Kind::I64 => Ok(Value::Int(i64::try_from(row).unwrap_or(-1))),
        Kind::Binary => Ok(Value::Bytes(ByteList::of(
            alloc,
            &[(row % 256) as u8, 7, 9][..row % 4],
        )?)),
        _ => Ok(Value::Null),
    }
}

// A row of a column in which none, a third or all of the rows are null, as `nulls` is 0, 1 or 3.
fn push_row(
    alloc: Global,
    builder: &mut ColumnBuilder,
    kind: Kind,
    nulls: usize,
    row: usize,
) -> Result<(), NoMemory>
    requires { builder.old.ty.kind ≡ kind }
    ensures { builder.new.ty ≡ builder.old.ty }
{
    if row % 3 < nulls {
        return builder.push(&Value::Null);
    }
    let value = value_of(alloc, kind, row)?;
    builder.push(&value)
}

fn push_rows(
    alloc: Global,
    builder: &mut ColumnBuilder,
    kind: Kind,
    nulls: usize,
) -> Result<(), NoMemory>
    requires { builder.old.ty.kind ≡ kind }
{
    for row in 0..ROWS {
        push_row(alloc, builder, kind, nulls, row)?;
    }
    Ok(())
}

fn column(alloc: Global, kind: Kind, nulls: usize) -> Result<Column, NoMemory>
    requires { IsKind kind }
{
    let ty = Ty {
        kind,
        nullable: true,
    };
    let mut builder = ColumnBuilder::with_capacity(alloc, ty, ROWS)?;
    push_rows(alloc, &mut builder, kind, nulls)?;
    Ok(builder.finish())
}

// Whether the two are the same value.
fn is_same(a: &Value, b: &Value) -> bool {
    match (a, b) {
        (Value::Null, Value::Null) => true,
        (Value::Bool(a), Value::Bool(b)) => a == b,
        (Value::Int(a), Value::Int(b)) => a == b,
        (Value::Bytes(a), Value::Bytes(b)) => a.bytes() == b.bytes(),
        _ => false,
    }
}

// Whether a value of one is that of another.
fn has(alloc: Global, a: &DataView<'_>, i: usize, b: &DataView<'_>, j: usize) -> bool {
    if i >= a.len() || j >= b.len() {
        return false;
    }
    match (a.value_at(alloc, i), b.value_at(alloc, j)) {
        (Ok(a), Ok(b)) => is_same(&a, &b),
        _ => false,
    }
}

// A part, as far as it is there.
fn part_of<'a>(whole: &ColumnView<'a>, from: usize, to: usize) -> ColumnView<'a> {
    let to = to.min(whole.values.len());
    whole.part(from.min(to), to)
}

// Whether the part is the values from a place on.
fn begins_at(alloc: Global, part: &ColumnView<'_>, whole: &ColumnView<'_>, from: usize) -> bool {
    for i in 0..part.values.len() {
        if !has(
            alloc,
            &part.values,
            i,
            &whole.values,
            from.saturating_add(i),
        ) {
            return false;
        }
    }
    true
}

// Places all over a part, some of them twice.
fn places(alloc: Global, len: usize) -> Result<Vec<u64>, NoMemory> {
    let mut at = Vec::new(alloc);
    if len == 0 {
        return Ok(at);
    }
    for i in 0..ROWS {
        at.push((i * 13 % len) as u64)?;
    }
    Ok(at)
}

// Whether a gather gives the values at the places.
fn gathers(alloc: Global, part: &ColumnView<'_>) -> Result<bool, NoMemory> {
    let at = places(alloc, part.values.len())?;
    gathers_at(alloc, part, &at)
}

fn gathers_at(alloc: Global, part: &ColumnView<'_>, at: &[u64]) -> Result<bool, NoMemory> {
    if !are_below(at, part.values.len() as u64) {
        return Ok(false);
    }
    let gathered = part.gather(alloc, at)?;
    Ok(are_gathered(alloc, &gathered.values.view(), &part.values, at))
}

fn are_gathered(alloc: Global, gathered: &DataView<'_>, part: &DataView<'_>, at: &[u64]) -> bool {
    for (i, place) in at.iter().enumerate() {
        if !has(alloc, gathered, i, part, *place as usize) {
            return false;
        }
    }
    true
}

// Whether the part is there twice where it is added twice.
fn doubles(alloc: Global, part: &ColumnView<'_>) -> Result<bool, NoMemory> {
    let twice = doubled(alloc, part)?;
    Ok(are_twice(alloc, &twice.values.view(), &part.values))
}

fn doubled(alloc: Global, part: &ColumnView<'_>) -> Result<Column, NoMemory> {
    let mut builder = ColumnBuilder::new(alloc, part.ty);
    extend_twice(&mut builder, part)?;
    Ok(builder.finish())
}

fn extend_twice(builder: &mut ColumnBuilder, part: &ColumnView<'_>) -> Result<(), NoMemory>
    requires { part.now.ty.kind ≡ builder.old.ty.kind }
{
    builder.extend(part)?;
    builder.extend(part)
}

// Whether the values of a part stand here at the places from 0 and again from the part's length on.
fn are_twice(alloc: Global, twice: &DataView<'_>, part: &DataView<'_>) -> bool {
    let len = part.len();
    for i in 0..len {
        if !(has(alloc, twice, i, part, i) && has(alloc, twice, len.saturating_add(i), part, i)) {
            return false;
        }
    }
    true
}

// Whether the part is as it is to be.
fn is_part(
    alloc: Global,
    part: &ColumnView<'_>,
    whole: &ColumnView<'_>,
    from: usize,
) -> Result<bool, NoMemory> {
    if !begins_at(alloc, part, whole, from) {
        return Ok(false);
    }
    if !gathers(alloc, part)? {
        return Ok(false);
    }
    doubles(alloc, part)
}

fn are_parts(alloc: Global, whole: &ColumnView<'_>) -> Result<bool, NoMemory> {
    for from in 0..10 {
        if !is_part(alloc, &part_of(whole, from, ROWS - from), whole, from)? {
            return Ok(false);
        }
    }
    Ok(true)
}

// Whether each part of the column is as it is to be.
fn has_parts(alloc: Global, kind: Kind, nulls: usize) -> Result<bool, NoMemory>
    requires { IsKind kind }
{
    let column = column(alloc, kind, nulls)?;
    are_parts(alloc, &column.view())
}

#[test]
fn parts_of_truth_values(rt: HostRuntime) {
    assert!(rt; has_parts(rt.alloc(), Kind::Bool, 0) == Ok(true));
    assert!(rt; has_parts(rt.alloc(), Kind::Bool, 1) == Ok(true));
    assert!(rt; has_parts(rt.alloc(), Kind::Bool, 3) == Ok(true));
}

#[test]
fn parts_of_numbers(rt: HostRuntime) {
    assert!(rt; has_parts(rt.alloc(), Kind::I64, 0) == Ok(true));
    assert!(rt; has_parts(rt.alloc(), Kind::I64, 1) == Ok(true));
    assert!(rt; has_parts(rt.alloc(), Kind::I64, 3) == Ok(true));
}

#[test]
fn parts_of_binaries(rt: HostRuntime) {
    assert!(rt; has_parts(rt.alloc(), Kind::Binary, 0) == Ok(true));
    assert!(rt; has_parts(rt.alloc(), Kind::Binary, 1) == Ok(true));
    assert!(rt; has_parts(rt.alloc(), Kind::Binary, 3) == Ok(true));
}

// Five times -4, in a column that was moved out of its batch.
fn moved(alloc: Global) -> Result<Option<Column>, NoMemory> {
    let ty = Ty {
        kind: Kind::I32,
        nullable: true,
    };
    let column = Column::constant(alloc, ty, &Value::Int(-4), 5)?;
    let rows = column.values.len() as u64;
    let batch = Batch {
        number: 0,
        rows,
        columns: vec![in alloc; column]?,
    };
    let Batch { columns, .. } = batch;
    let mut columns = columns;
    Ok(columns.pop())
}

#[test]
fn a_constant_column_moves_out_of_its_batch(rt: HostRuntime) {
    let alloc = rt.alloc();
    let holds = match moved(alloc) {
        Ok(Some(column)) => column.values.len() == 5 && column.ty.kind == Kind::I32,
        _ => false,
    };
    assert!(rt; holds);
}
