// The columns of the demo's tables.
ghost use Rattle.std.specs.Prelude.{◌≡◌, ◌*◌, ◌<◌, ◌≤◌, pos, map, IfOk};
ghost use Rattle.std.specs.List.{range_with_len};
ghost use Rattle.sub_types.specs.declared.value.Value.TheVariants as values;
ghost use Rattle.batch.specs.Column.{column_values};
ghost use Rattle.gen_data.specs.Rows.{MAX_NUMBER, region_of, order_of, quantity_of};
ghost use Rattle.gen_data.specs.Checked.{whole_type, text_type};

use batch::{Column, ColumnBuilder};
use std::alloc::Global;
use sub_types::{ByteList, Kind, NoMemory, Ty, Value};

/// A whole number of 64 bits, or null.
pub(crate) const WHOLE: Ty = Ty {
    kind: Kind::I64,
    nullable: true,
};

/// A text, or null.
pub(crate) const TEXT: Ty = Ty {
    kind: Kind::Text,
    nullable: true,
};

/// The numbers of so many orders.
pub(crate) fn ids(alloc: Global, number: u32) -> Result<Column, NoMemory>
    ensures values { IfOk result (λ column. column_values column ≡ map (λ order. values.Int (pos order)) (range_with_len 0 number)) }
    ensures ty { IfOk result (λ column. column.ty ≡ whole_type) }
{
    let mut builder = ColumnBuilder::new(alloc, WHOLE);
    for order in 0..number {
        builder.push(&Value::Int(i64::from(order)))?;
    }
    Ok(builder.finish())
}

/// The regions of so many orders.
pub(crate) fn regions(alloc: Global, number: u32) -> Result<Column, NoMemory>
    ensures values { IfOk result (λ column. column_values column ≡ map (λ order. values.Bytes (region_of order)) (range_with_len 0 number)) }
    ensures ty { IfOk result (λ column. column.ty ≡ text_type) }
{
    let mut builder = ColumnBuilder::new(alloc, TEXT);
    for order in 0..number {
        builder.push(&Value::Bytes(region(alloc, order)?))?;
    }
    Ok(builder.finish())
}

/// The numbers of the orders of the lines of so many orders.
pub(crate) fn oids(alloc: Global, number: u32) -> Result<Column, NoMemory>
    requires { number ≤ MAX_NUMBER }
    ensures values { IfOk result (λ column. column_values column ≡ map (λ line. values.Int (pos (order_of number line))) (range_with_len 0 (4 * number))) }
    ensures ty { IfOk result (λ column. column.ty ≡ whole_type) }
{
    let mut builder = ColumnBuilder::new(alloc, WHOLE);
    for line in 0..4 * number {
        builder.push(&Value::Int(i64::from(7 * line % (number + 1))))?;
    }
    Ok(builder.finish())
}

/// The quantities of the lines of so many orders.
pub(crate) fn quantities(alloc: Global, number: u32) -> Result<Column, NoMemory>
    requires { number ≤ MAX_NUMBER }
    ensures values { IfOk result (λ column. column_values column ≡ map quantity_of (range_with_len 0 (4 * number))) }
    ensures ty { IfOk result (λ column. column.ty ≡ whole_type) }
{
    let mut builder = ColumnBuilder::new(alloc, WHOLE);
    for line in 0..4 * number {
        builder.push(&quantity(line))?;
    }
    Ok(builder.finish())
}

// The region of an order.
#[tactic(auto, using(crate::proofs::RegionLaws::region_is))]
fn region(alloc: Global, order: u32) -> Result<ByteList, NoMemory>
    ensures { IfOk result (λ region. region ≡ region_of order) }
{
    ByteList::of(alloc, &[b'r', b'0' + (order % 3) as u8])
}

// The quantity of a line.
fn quantity(line: u32) -> Value
    ensures { result ≡ quantity_of line }
{
    if line % 11 == 10 {
        Value::Null
    } else {
        Value::Int(i64::from(line % 10))
    }
}
