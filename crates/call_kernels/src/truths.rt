// Functions of truth values.
ghost use Rattle.std.specs.Prelude.{◌≡◌, ℕ, length, map, Ok, IfOk, IfSome};
ghost use Rattle.std.specs.Simd.Lanes.{zip2};
ghost use Rattle.sub_types.specs.Nullable.{bool_value};
ghost use Rattle.plan_denote.specs.Logic as logic;
ghost use Rattle.call_kernels.specs.Operand.{values};

use crate::Operand;
use batch::ColumnData;
use col_fixed::BoolCol;
use kernels::{not3, xor3};
use std::alloc::Global;
use sub_types::NoMemory;

/// `xor` at each place, where both arguments are columns of truth values.
pub(crate) fn xor_two(
    alloc: Global,
    a: Operand<'_>,
    b: Operand<'_>,
    n: usize,
) -> Result<Option<BoolCol>, NoMemory>
    requires a { length (values n a) ≡ n }
    requires b { length (values n b) ≡ n }
    ensures { IfOk result (λ found. IfSome found (λ column. map (λ truth. Ok (bool_value truth)) column ≡ zip2 logic.xor_of (values n a.entry) (values n b.entry))) }
{
    let Some(left) = truths_of(a) else {
        return Ok(None);
    };
    let Some(right) = truths_of(b) else {
        return Ok(None);
    };
    if left.len() != n || right.len() != n {
        return Ok(None);
    }
    Ok(Some(xor3(alloc, left, right)?))
}

/// `not` at each place of a column of truth values.
pub(crate) fn not_one(alloc: Global, a: Operand<'_>) -> Result<Option<BoolCol>, NoMemory>
    ensures { IfOk result (λ found. IfSome found (λ column. (n : ℕ) → map (λ truth. Ok (bool_value truth)) column ≡ map logic.not_of (values n a.entry))) }
{
    let Some(truths) = truths_of(a) else {
        return Ok(None);
    };
    Ok(Some(not3(alloc, truths)?))
}

/// The column of truth values that an argument is.
fn truths_of(operand: Operand<'_>) -> Option<&BoolCol>
    ensures { IfSome result (λ column. (n : ℕ) → map bool_value column.now ≡ values n operand.entry) }
{
    match operand {
        Operand::Column(column) => match &column.values {
            ColumnData::Bool(truths) => Some(truths),
            _ => None,
        },
        Operand::Constant(_) => None,
    }
}
