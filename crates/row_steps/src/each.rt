// What each row gives, up to the first fault.
ghost use Rattle.sub_types.specs.Stream.{rows_alone};
ghost use Rattle.std.specs.Prelude.{◌≡◌, List, Result, IfOk, Some};
ghost use Rattle.plan_denote.specs.Rows.{each_row as spec_each_row, fault_at};
ghost use Rattle.row_steps.specs.Seen.{seen, ComesAtMost};
ghost use Rattle.sub_types.specs.declared.fault.FaultKind.{FaultKind as Kind};

use crate::stream::Stream;
use eval_values::EvalError;
use plan_leaves::Items;
use std::alloc::Global;
use sub_types::{Fault, FaultKind, NoMemory};

/// Each row gives one or none, or a fault of the relation of this number, which ends the rows.
pub fn each_row<A, B, F>(
    alloc: Global,
    number: u32,
    input: Stream<A>,
    given: F,
) -> Result<Stream<B>, NoMemory>
where
    A: Drop,
    B: Drop,
    F: Fn(A) -> Result<Option<B>, EvalError>,
    requires { (row : _) → F.pre given row }
    ensures { (f : A → Result (List B) Kind) → ((row : _) (result : _) → F.post given row result → ComesAtMost result (f row)) → IfOk result (λ s. seen s ≡ spec_each_row number f (seen input)) }
{
    let Stream { rows: items, end } = input;
    let mut rows = Items::new(alloc);
    for row in items.into_vec() {
        match given(row) {
            Ok(Some(one)) => rows.push(one)?,
            Ok(None) => {}
            Err(EvalError::Fault(kind)) => return Ok(ended_at(number, rows, kind)),
            Err(EvalError::NoMemory) => return Err(NoMemory),
        }
    }
    Ok(Stream { rows, end })
}

/// The rows before a fault of the relation of this number.
pub fn ended_at<R>(number: u32, rows: Items<R>, kind: FaultKind) -> Stream<R>
    ensures { seen result ≡ record { rows = rows; end = Some (fault_at number kind) } }
{
    let relation = number;
    Stream {
        rows,
        end: Some(Fault { relation, kind }),
    }
}

/// The same of rows that stay where they are, which end without a fault.
pub fn each_of<A, B, F>(
    alloc: Global,
    number: u32,
    all: &[A],
    given: F,
) -> Result<Stream<B>, NoMemory>
where
    B: Drop,
    F: Fn(&A) -> Result<Option<B>, EvalError>,
    requires { (row : _) → F.pre given row }
    ensures { (f : A → Result (List B) Kind) → ((row : _) (result : _) → F.post given row result → ComesAtMost result (f row.now)) → IfOk result (λ s. seen s ≡ spec_each_row number f (rows_alone all.now)) }
{
    let mut rows = Items::new(alloc);
    for row in all {
        match given(row) {
            Ok(Some(one)) => rows.push(one)?,
            Ok(None) => {}
            Err(EvalError::Fault(kind)) => return Ok(ended_at(number, rows, kind)),
            Err(EvalError::NoMemory) => return Err(NoMemory),
        }
    }
    Ok(Stream { rows, end: None })
}
