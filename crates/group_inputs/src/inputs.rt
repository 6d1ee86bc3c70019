// The keys of a batch's rows and what measures take of them.
ghost use Rattle.std.specs.Prelude.{All, IfOk};
ghost use Rattle.sub_types.specs.Value.{Fits};
ghost use Rattle.well_typed.specs.ExprTyped.{IsTypedOver};
ghost use Rattle.well_typed.specs.WellTyped.{IsMeasureOver};
ghost use Rattle.batch.specs.BatchRows.{rows_of, types_of};
ghost use Rattle.group_inputs.specs.Inputs.{IsEvaluated};

use crate::before::Before;
use crate::keys::{key_columns, places};
use crate::taking::takings;
use batch::Batch;
use group_columns::Taken;
use plan_typed::{Expr, TypedMeasure};
use std::alloc::Global;
use sub_types::{FaultKind, NoMemory};

/// The keys of a batch's rows and what the measures take of them.
#[derive(Drop)]
pub struct Inputs {
    /// A column for each grouping expression.
    pub keys: Batch,
    /// The places of these columns.
    pub columns: Vec<u32>,
    /// What each measure takes.
    pub taken: Vec<Taken>,
}

/// What the expressions of an aggregate are worth at a batch's rows: values at all of them, or the first fault.
#[derive(Drop)]
pub enum Evaluated {
    All(Inputs),
    Fault(FaultKind),
}

/// The grouping expressions and the measures at a batch's rows. The first fault is that of the least row, and on it that of the
/// first expression: those of the groups, and then each measure's filter and argument.
pub fn inputs_of(
    alloc: Global,
    groups: &[Expr],
    measures: &[TypedMeasure],
    batch: &Batch,
) -> Result<Evaluated, NoMemory>
    requires groups { All (IsTypedOver (types_of batch.now)) groups.now }
    requires measures { All (IsMeasureOver (types_of batch.now)) measures.now }
    requires fit { All (Fits (types_of batch.now)) (rows_of batch.now) }
    ensures { IfOk result (λ out. IsEvaluated groups.now measures.now batch.now out) }
{
    let start = Before {
        rows: batch.rows as usize,
        stop: None,
    };
    let (columns, keyed) = key_columns(alloc, groups, batch, start)?;
    let (taken, after) = takings(alloc, measures, batch, keyed)?;
    match after.stop {
        Some(kind) => Ok(Evaluated::Fault(kind)),
        None => {
            let columns_at = places(alloc, groups.len())?;
            let keys = Batch {
                number: batch.number,
                rows: batch.rows,
                columns,
            };
            Ok(Evaluated::All(Inputs {
                keys,
                columns: columns_at,
                taken,
            }))
        }
    }
}
