// What measures take of the rows of a batch.
ghost use Rattle.std.specs.Prelude.{◌≡◌, ◌≤◌, length, All, IfOk};
ghost use Rattle.sub_types.specs.Value.{Fits};
ghost use Rattle.well_typed.specs.ExprTyped.{IsTypedOver};
ghost use Rattle.well_typed.specs.WellTyped.{IsConditionOver, IsMeasureOver, MayBe};
ghost use Rattle.batch.specs.BatchRows.{rows_of, types_of};
ghost use Rattle.group_inputs.specs.Taking.{IsTested, IsTaking, AreTakings, IsTest};

use crate::arguments::argument_values;
use crate::before::{Before, values_before};
use batch::{Batch, Column};
use group_columns::Taken;
use plan_typed::{Expr, TypedMeasure};
use std::alloc::Global;
use sub_types::NoMemory;

/// What each measure takes of the first rows.
pub(crate) fn takings(
    alloc: Global,
    measures: &[TypedMeasure],
    batch: &Batch,
    before: Before,
) -> Result<(Vec<Taken>, Before), NoMemory>
    requires few { before.rows ≤ batch.now.rows }
    requires typed { All (IsMeasureOver (types_of batch.now)) measures.now }
    requires fit { All (Fits (types_of batch.now)) (rows_of batch.now) }
    ensures { IfOk result (λ out. AreTakings measures.now batch.now before out.0.items out.1) }
{
    let mut all = Vec::new(alloc);
    let mut state = before;
    for measure in measures {
        let (taken, after) = taking(alloc, measure, batch, state)?;
        all.push(taken)?;
        state = after;
    }
    Ok((all, state))
}

/// What a measure takes of the first rows: the filter at all of them, and the argument at those for which the filter is true.
fn taking(
    alloc: Global,
    measure: &TypedMeasure,
    batch: &Batch,
    before: Before,
) -> Result<(Taken, Before), NoMemory>
    requires few { before.rows ≤ batch.now.rows }
    requires typed { IsMeasureOver (types_of batch.now) measure.now }
    requires fit { All (Fits (types_of batch.now)) (rows_of batch.now) }
    ensures { IfOk result (λ out. IsTaking measure.now batch.now before out.0 out.1) }
{
    let (tests, tested) = filter_values(alloc, &measure.filter, batch, before)?;
    let (values, after) = argument_values(alloc, &measure.arg, batch, &tests, tested)?;
    Ok((Taken { tests, values }, after))
}

/// The filter at the first rows.
fn filter_values(
    alloc: Global,
    filter: &Option<Expr>,
    batch: &Batch,
    before: Before,
) -> Result<(Option<Column>, Before), NoMemory>
    requires few { before.rows ≤ batch.now.rows }
    requires typed { MayBe (IsConditionOver (types_of batch.now)) filter.now }
    requires fit { All (Fits (types_of batch.now)) (rows_of batch.now) }
    ensures column { IfOk result (λ out. IsTested filter.now batch.now before out.0 out.1) }
    ensures tests { IfOk result (λ out. MayBe (IsTest out.1.rows) out.0) }
{
    match filter {
        None => Ok((None, before)),
        Some(filter) => {
            let (tests, after) = values_before(alloc, filter, batch, before)?;
            Ok((Some(tests), after))
        }
    }
}
