// What a measure takes of the rows for which its filter is true.
ghost use Rattle.std.specs.Prelude.{◌≡◌, ◌<◌, ◌≤◌, length, All, IfOk, MatchOption};
ghost use Rattle.std.specs.List.{range_with_len};
ghost use Rattle.sub_types.specs.Value.{Fits};
ghost use Rattle.sub_types.specs.declared.kind.Kind.TheVariants.{Bool};
ghost use Rattle.well_typed.specs.ExprTyped.{IsTypedOver};
ghost use Rattle.well_typed.specs.WellTyped.{MayBe};
ghost use Rattle.batch.specs.BatchRows.{rows_of, types_of};
ghost use Rattle.batch.specs.Column.{column_values};
ghost use Rattle.group_columns.specs.Columns.{values_or_true};
ghost use Rattle.group_inputs.specs.Taking.{places_in, IsBefore, IsChosen, IsArgument, IsTest};

use crate::before::{Before, kind_or, values_before};
use batch::{Batch, Column, ColumnData};
use eval_batch::eval_rows;
use kernels::{Rows, Stop, select};
use plan_typed::Expr;
use std::alloc::Global;
use sub_types::NoMemory;

/// The argument at the rows for which the filter is true, which has these values at the first rows.
pub(crate) fn argument_values(
    alloc: Global,
    arg: &Option<Expr>,
    batch: &Batch,
    tests: &Option<Column>,
    tested: Before,
) -> Result<(Option<Column>, Before), NoMemory>
    requires few { tested.rows ≤ batch.now.rows }
    requires typed { MayBe (IsTypedOver (types_of batch.now)) arg.now }
    requires fit { All (Fits (types_of batch.now)) (rows_of batch.now) }
    requires tests { MayBe (IsTest tested.rows) tests.now }
    ensures { IfOk result (λ out. IsArgument arg.now batch.now tests.now tested out.0 out.1) }
{
    match (arg, tests) {
        (None, _) => Ok((None, tested)),
        (Some(arg), None) => {
            let (values, after) = values_before(alloc, arg, batch, tested)?;
            Ok((Some(values), after))
        }
        (Some(arg), Some(tests)) => {
            let (values, after) = chosen_values(alloc, arg, batch, tests, tested)?;
            Ok((Some(values), after))
        }
    }
}

/// An expression at the rows for which a test is true.
fn chosen_values(
    alloc: Global,
    arg: &Expr,
    batch: &Batch,
    tests: &Column,
    tested: Before,
) -> Result<(Column, Before), NoMemory>
    requires few { tested.rows ≤ batch.now.rows }
    requires typed { IsTypedOver (types_of batch.now) arg.now }
    requires fit { All (Fits (types_of batch.now)) (rows_of batch.now) }
    requires tests { IsTest tested.rows tests.now }
    ensures { IfOk result (λ out. IsChosen arg.now batch.now (column_values tests.now) tested out.0 out.1) }
{
    let places = true_places(alloc, tests)?;
    let (found, stop) = eval_rows(alloc, arg, batch, &Rows::listed(places.as_slice()))?;
    let after = before_stop(stop, tested);
    let column = found.into_column(alloc, arg.ty())?;
    Ok((column, after))
}

/// The rows before a stop at one of them.
fn before_stop(stop: Stop, tested: Before) -> Before
    ensures { IsBefore stop tested result }
{
    match stop {
        Stop::Never => tested,
        Stop::At { row, kind } => Before {
            rows: row as usize,
            stop: Some(kind),
        },
    }
}

/// The places of the values that are true.
fn true_places(alloc: Global, tests: &Column) -> Result<Vec<u64>, NoMemory>
    requires { tests.now.ty.kind ≡ Bool }
    ensures { IfOk result (λ places. places.items ≡ places_in (range_with_len 0 (length (column_values tests.now))) (column_values tests.now)) }
{
    match &tests.values {
        ColumnData::Bool(tests) => Ok(select(alloc, tests)?.rows),
        _ => Ok(Vec::new(alloc)),
    }
}
