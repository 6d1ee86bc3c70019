// Arithmetic on arguments that are decimals.
ghost use Rattle.std.specs.Prelude.{◌≡◌, ◌<◌, ◌≤◌, ◌-◌, ◌^◌, ℕ, length, pos, neg_ℤ, true, IfOk, IfSome};
ghost use Rattle.std.specs.Int.{w128};
ghost use Rattle.sub_types.specs.Kind.{IsDecimal};
ghost use Rattle.sub_types.specs.Value.{InKind};
ghost use Rattle.sub_types.specs.declared.kind.Kind.TheVariants as kinds;
ghost use Rattle.func_table.specs.Kinds as kind_spec;
ghost use Rattle.plan_denote.specs.Calls.{binary};
ghost use Rattle.kernels.specs.Arith as arith_spec;
ghost use Rattle.call_kernels.specs.Decimals as spec;
ghost use Rattle.call_kernels.specs.Made.{IsMade, at_places};
ghost use Rattle.call_kernels.specs.Operand.{values};

use crate::Operand;
use crate::arithmetic::arith_numbers;
use crate::numbers::i128_numbers;
use batch::{Column, ColumnData};
use kernels::{ArithOp, Stop};
use plan_typed::Overflow;
use std::alloc::Global;
use sub_types::{Kind, NoMemory, Ty};

/// The results up to the first fault, and that fault, where both arguments are decimals whose numbers are put together as they
/// are: those of a product, and those of a sum or a difference of the result's scale.
pub(crate) fn arith_decimals(
    alloc: Global,
    op: ArithOp,
    mode: Overflow,
    ty: Ty,
    precision: u8,
    scale: u8,
    given: &[Kind],
    a: Operand<'_>,
    b: Operand<'_>,
    n: usize,
) -> Result<Option<(Column, Stop)>, NoMemory>
    requires kind { ty.kind ≡ kinds.Decimal precision scale }
    requires a { length (values n a) ≡ n }
    requires b { length (values n b) ≡ n }
    requires in_kind { (i : ℕ) → i < n → IfOk (at_places (binary (arith_spec.func_of op) ty.kind mode given.now) (values n a) (values n b) i) (InKind ty.kind) }
    ensures { IfOk result (λ found. IfSome found (λ out. IsMade (at_places (binary (arith_spec.func_of op) ty.kind mode given.now) (values n a.entry) (values n b.entry)) n ty out.0 out.1)) }
{
    if !are_plain(op, scale, given) {
        return Ok(None);
    }
    if !is_decimal(precision, scale) {
        return Ok(None);
    }
    let Some(left) = i128_numbers(a) else {
        return Ok(None);
    };
    let Some(right) = i128_numbers(b) else {
        return Ok(None);
    };
    let range = ends(precision);
    let Some(found) = arith_numbers(alloc, op, mode, range, left, right, n)? else {
        return Ok(None);
    };
    let column = Column {
        ty,
        values: ColumnData::I128(found.0),
    };
    Ok(Some((column, found.1)))
}

/// Whether the numbers of decimals of these kinds are put together as they are.
fn are_plain(op: ArithOp, scale: u8, given: &[Kind]) -> bool
    ensures { result ≡ true → spec.ArePlain op scale given.now }
{
    match op {
        ArithOp::Add => have_scale(scale, given),
        ArithOp::Subtract => have_scale(scale, given),
        ArithOp::Multiply => true,
        ArithOp::Divide => false,
        ArithOp::Modulus => false,
    }
}

/// Whether these are two kinds of this scale.
fn have_scale(scale: u8, given: &[Kind]) -> bool
    ensures { result ≡ true → spec.HaveScale scale given.now }
{
    match given {
        [first, second] => scale_of(*first) == scale && scale_of(*second) == scale,
        _ => false,
    }
}

fn scale_of(kind: Kind) -> u8
    ensures { result ≡ kind_spec.scale_of kind }
{
    match kind {
        Kind::Decimal { scale, .. } => scale,
        _ => 0,
    }
}

/// Whether there is a kind of decimals of this precision and scale.
fn is_decimal(precision: u8, scale: u8) -> bool
    ensures { result ≡ true → IsDecimal precision scale }
{
    1 <= precision && precision <= 38 && scale <= precision
}

/// The least and the greatest number of decimals of a precision.
fn ends(precision: u8) -> (i128, i128)
    requires { precision ≤ 38 }
    ensures { arith_spec.IsDecimalKind precision w128 result.0 result.1 }
{
    let most = greatest(precision);
    (-most, most)
}

/// The greatest number of so many digits.
fn greatest(digits: u8) -> i128
    requires { digits ≤ 38 }
    ensures { result ≡ pos (10 ^ digits - 1) }
{
    let power = power_of_ten(digits);
    (power - 1) as i128
}

/// 10 to a power of which 128 bits hold each.
fn power_of_ten(exponent: u8) -> u128
    requires { exponent ≤ 38 }
    ensures value { result ≡ 10 ^ exponent }
    ensures bound { result ≤ 10 ^ 38 }
{
    10u128.pow(u32::from(exponent))
}
