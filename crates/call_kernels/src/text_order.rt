// Comparisons of texts and of binaries, by their bytes.
ghost use Rattle.std.specs.Prelude.{◌≡◌, ◌+◌, ℕ, length, map, Ok, IfOk, IfSome, option_copied};
ghost use Rattle.std.specs.Simd.Lanes.{zip2};
ghost use Rattle.sub_types.specs.Nullable.{bool_value, bytes_value};
ghost use Rattle.sub_types.specs.declared.value.Value.TheVariants as worth;
ghost use Rattle.plan_denote.specs.Logic as logic;
ghost use Rattle.plan_denote.specs.Order.{value_cmp};
ghost use Rattle.kernels.specs.Numbers.{test_of};
ghost use Rattle.call_kernels.specs.Operand.{values};
ghost use Rattle.call_kernels.specs.Texts as spec;

use crate::Operand;
use crate::texts::Texts;
use batch::ColumnData;
use col_fixed::{BoolBuilder, BoolCol};
use kernels::CompareOp;
use std::alloc::Global;
use sub_types::{NoMemory, Value};

/// The comparison at each place, where both arguments are texts, or binaries.
pub(crate) fn compare_bytes(
    alloc: Global,
    op: CompareOp,
    a: Operand<'_>,
    b: Operand<'_>,
    n: usize,
) -> Result<Option<BoolCol>, NoMemory>
    requires a { length (values n a) ≡ n }
    requires b { length (values n b) ≡ n }
    ensures { IfOk result (λ found. IfSome found (λ column. map (λ truth. Ok (bool_value truth)) column ≡ zip2 (logic.compared (test_of op)) (values n a.entry) (values n b.entry))) }
{
    let Some(left) = bytes_of(a) else {
        return Ok(None);
    };
    let Some(right) = bytes_of(b) else {
        return Ok(None);
    };
    Ok(Some(compare_each(alloc, op, &left, &right, n)?))
}

/// The texts or binaries that an argument is, if it is made of them.
fn bytes_of(operand: Operand<'_>) -> Option<Texts<'_>>
    ensures { IfSome result (λ found. (n : ℕ) → map bytes_value (spec.listed n found) ≡ values n operand.entry) }
{
    match operand {
        Operand::Column(column) => match &column.values {
            ColumnData::Bytes(texts) => Some(Texts::Column(texts)),
            _ => None,
        },
        Operand::Constant(value) => {
            let bytes = constant_bytes(value)?;
            Some(Texts::Constant(bytes))
        }
    }
}

/// The bytes of a value, if it has some or is null.
fn constant_bytes(value: &Value) -> Option<Option<&[u8]>>
    ensures { IfSome result (λ bytes. bytes_value (option_copied bytes) ≡ value.now) }
{
    match value {
        Value::Bytes(bytes) => Some(Some(bytes.bytes())),
        Value::Null => Some(None),
        _ => None,
    }
}

/// The comparison at each place.
fn compare_each(
    alloc: Global,
    op: CompareOp,
    a: &Texts<'_>,
    b: &Texts<'_>,
    n: usize,
) -> Result<BoolCol, NoMemory>
    requires a { length (spec.listed n a.now) ≡ n }
    requires b { length (spec.listed n b.now) ≡ n }
    ensures { IfOk result (λ column. map (λ truth. Ok (bool_value truth)) column ≡ zip2 (logic.compared (test_of op)) (map bytes_value (spec.listed n a.now)) (map bytes_value (spec.listed n b.now))) }
{
    let mut column = BoolBuilder::with_capacity(alloc, n)?;
    for i in 0..n {
        column.push(compared(op, bytes_at(a, i), bytes_at(b, i)))?;
    }
    Ok(column.finish())
}

/// The bytes at a place.
fn bytes_at<'a>(all: &Texts<'a>, i: usize) -> Option<&'a [u8]>
    requires { spec.Reaches all.now (i + 1) }
    ensures { option_copied result ≡ spec.text_of all.now i }
{
    match all {
        Texts::Column(column) => column.value_at(i),
        Texts::Constant(bytes) => *bytes,
    }
}

/// The comparison of bytes that may be missing.
fn compared(op: CompareOp, a: Option<&[u8]>, b: Option<&[u8]>) -> Option<bool>
    ensures { Ok (bool_value result) ≡ logic.compared (test_of op) (bytes_value (option_copied a.entry)) (bytes_value (option_copied b.entry)) }
{
    match a {
        Some(a) => compared_with(op, a, b),
        None => None,
    }
}

/// The same where there are some on the left.
fn compared_with(op: CompareOp, a: &[u8], b: Option<&[u8]>) -> Option<bool>
    ensures { Ok (bool_value result) ≡ logic.compared (test_of op) (worth.Bytes a.now) (bytes_value (option_copied b.entry)) }
{
    match b {
        Some(b) => Some(does_hold(op, a, b)),
        None => None,
    }
}

fn does_hold(op: CompareOp, a: &[u8], b: &[u8]) -> bool
    ensures { result ≡ test_of op (value_cmp (worth.Bytes a.now) (worth.Bytes b.now)) }
{
    let order = a.cmp(b);
    match op {
        CompareOp::Eq => order.is_eq(),
        CompareOp::Ne => order.is_ne(),
        CompareOp::Lt => order.is_lt(),
        CompareOp::Le => order.is_le(),
        CompareOp::Gt => order.is_gt(),
        CompareOp::Ge => order.is_ge(),
    }
}
