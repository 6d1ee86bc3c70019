// Whether values lie between two constants.
ghost use Rattle.std.specs.Prelude.{◌≡◌, ℕ, false, length, map, Ok, IfOk, IfSome};
ghost use Rattle.std.specs.Simd.Lanes.{zip2};
ghost use Rattle.sub_types.specs.Nullable.{bool_value};
ghost use Rattle.sub_types.specs.declared.value.Value.{Value as value};
ghost use Rattle.plan_denote.specs.Computed as computed;
ghost use Rattle.plan_denote.specs.Logic as logic;
ghost use Rattle.call_kernels.specs.Operand.{values};

use crate::Operand;
use crate::comparisons::compare_two;
use col_fixed::BoolCol;
use kernels::{CompareOp, and3};
use std::alloc::Global;
use sub_types::{NoMemory, Value};

/// Whether each value lies between two constants: it is at least the one and at most the other. Null where one of the constants is
/// null isn't made here.
pub(crate) fn between_constants(
    alloc: Global,
    a: Operand<'_>,
    low: &Value,
    high: &Value,
    n: usize,
) -> Result<Option<BoolCol>, NoMemory>
    requires { length (values n a) ≡ n }
    ensures { IfOk result (λ found. IfSome found (λ column. map (λ truth. Ok (bool_value truth)) column ≡ zip2 (λ (x y : value). logic.between x low.now high.now) (values n a.entry) (values n a.entry))) }
{
    if is_null(low) {
        return Ok(None);
    }
    if is_null(high) {
        return Ok(None);
    }
    between_known(alloc, a, low, high, n)
}

/// The same where neither is null.
fn between_known(
    alloc: Global,
    a: Operand<'_>,
    low: &Value,
    high: &Value,
    n: usize,
) -> Result<Option<BoolCol>, NoMemory>
    requires a { length (values n a) ≡ n }
    requires low { computed.is_null low.now ≡ false }
    requires high { computed.is_null high.now ≡ false }
    ensures { IfOk result (λ found. IfSome found (λ column. map (λ truth. Ok (bool_value truth)) column ≡ zip2 (λ (x y : value). logic.between x low.now high.now) (values n a.entry) (values n a.entry))) }
{
    let Some(above) = compare_two(alloc, CompareOp::Ge, a, Operand::Constant(low), n)? else {
        return Ok(None);
    };
    let Some(below) = compare_two(alloc, CompareOp::Le, a, Operand::Constant(high), n)? else {
        return Ok(None);
    };
    if above.len() != below.len() {
        return Ok(None);
    }
    Ok(Some(and3(alloc, &above, &below)?))
}

fn is_null(value: &Value) -> bool
    ensures { result ≡ computed.is_null value.now }
{
    matches!(value, Value::Null)
}
