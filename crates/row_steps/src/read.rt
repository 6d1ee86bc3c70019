// Reads.
ghost use Rattle.std.specs.Prelude.{◌≡◌, IfOk, map};
ghost use Rattle.std.specs.Option.{option_map};
ghost use Rattle.plan_denote.specs.Eval.{eval};
ghost use Rattle.plan_denote.specs.Read as spec;
ghost use Rattle.plan_denote.specs.Rows.{condition_of};
ghost use Rattle.row_steps.specs.Seen.{seen, ComesAtMost};

use crate::each::{each_of, each_row};
use crate::emit::columns_at;
use crate::stream::RowStream;
use crate::values::{condition_at, values_at};
use eval_row::PlainRow;
use eval_values::{EvalError, is_true};
use plan_leaves::Items;
use plan_typed::Expr;
use std::alloc::Global;
use sub_types::{FaultKind, NoMemory, Ty, Value};

/// The most bytes of a text or binary value.
const MAX_TEXT: usize = 1_048_576;

/// The rows of a table as they are read: each is tested, then filtered, and then the columns of the mask are taken.
pub fn read_rows(
    alloc: Global,
    number: u32,
    types: &[Ty],
    filter: &Option<Expr>,
    mask: &[u32],
    input: RowStream,
) -> Result<RowStream, NoMemory>
    ensures { IfOk result (λ s. seen s ≡ spec.read_rows number types.now (condition_of (option_map eval filter.now)) mask.now (seen input)) }
{
    each_row(
        alloc,
        number,
        input,
        |row| read_row(alloc, types, filter, mask, row),
    )
}

fn read_row(
    alloc: Global,
    types: &[Ty],
    filter: &Option<Expr>,
    mask: &[u32],
    row: Items<Value>,
) -> Result<Option<Items<Value>>, EvalError>
    ensures { ComesAtMost result (spec.read_row types.now (condition_of (option_map eval filter.now)) mask.now row) }
{
    if let Some(kind) = row_fault(types, row.as_slice()) {
        return Err(EvalError::Fault(kind));
    }
    let test = condition_at(alloc, filter, &PlainRow::new(row.as_slice()))?;
    if !is_true(&test) {
        return Ok(None);
    }
    Ok(Some(columns_at(alloc, mask, row.as_slice())?))
}

/// What is wrong with a row: its first fault, column by column.
fn row_fault(types: &[Ty], row: &[Value]) -> Option<FaultKind>
    ensures { result ≡ spec.row_fault types.now row.now }
{
    for (ty, value) in types.iter().zip(row) {
        if let Some(kind) = value_fault(*ty, value) {
            return Some(kind);
        }
    }
    None
}

/// A null where none may stand, or too many bytes.
fn value_fault(ty: Ty, value: &Value) -> Option<FaultKind>
    ensures { result ≡ spec.value_fault ty value.now }
{
    match value {
        Value::Null if !ty.nullable => Some(FaultKind::NullInRequired),
        Value::Bytes(bytes) if bytes.len() > MAX_TEXT => Some(FaultKind::TextTooLong),
        _ => None,
    }
}

/// The rows that are written as expressions over no columns.
pub fn virtual_rows(alloc: Global, number: u32, rows: &[Items<Expr>]) -> Result<RowStream, NoMemory>
    ensures { IfOk result (λ s. seen s ≡ spec.virtual_rows number (map (map eval) rows.now)) }
{
    each_of(alloc, number, rows, |exprs| {
        Ok(Some(values_at(alloc, exprs.as_slice(), &PlainRow::new(&[]))?))
    })
}
