// What a measure makes of what is kept of a group.
ghost use Rattle.std.specs.Prelude.{◌≡◌, ◌-◌, ◌*◌, ◌^◌, ◌≤◌, ℤ, pos, negsuc};
ghost use Rattle.eval_values.specs.Number.{IsNumber};
ghost use Rattle.plan_denote.specs.Tally as spec;
ghost use Rattle.plan_denote.specs.Whole as whole_spec;
ghost use Rattle.plan_typed.specs.declared.expr.Func.TheVariants as funcs;
ghost use Rattle.plan_typed.specs.declared.expr.Overflow.TheVariants as modes;
ghost use Rattle.sub_types.specs.declared.kind.Kind.TheVariants as kinds;
ghost use Rattle.sub_types.specs.declared.value.Value.TheVariants as values;
ghost use Rattle.group_tallies.specs.Kept.{totalled};

use crate::running::Running;
use sub_types::{FaultKind, Kind, Value};

/// The sum in the result's kind, null where there are no values.
pub(crate) fn sum_of(kind: Kind, running: Running) -> Result<Value, FaultKind>
    requires { running.count ≤ 2 ^ 62 }
    ensures { result ≡ spec.final funcs.Sum kind (totalled running) }
{
    if running.count == 0 {
        return Ok(Value::Null);
    }
    in_kind(kind, running.total().narrow())
}

/// The average in the result's kind, null where there are no values.
pub(crate) fn average_of(kind: Kind, running: Running) -> Result<Value, FaultKind>
    requires { running.count ≤ 2 ^ 62 }
    ensures { result ≡ spec.final funcs.Avg kind (totalled running) }
{
    if running.count == 0 {
        return Ok(Value::Null);
    }
    let average = running.total().divided_by(running.count as u128);
    in_kind(kind, average.narrow())
}

/// An exact number in the result's kind.
fn in_kind(kind: Kind, n: Option<i128>) -> Result<Value, FaultKind>
    ensures { (exact : ℤ) → IsNumber n exact → result ≡ spec.in_kind kind exact }
{
    let Some(n) = n else {
        return Err(FaultKind::Overflow);
    };
    match kind {
        Kind::Decimal { precision, .. } => decimal(precision, n),
        _ => whole(kind, n),
    }
}

/// The most digits of a decimal.
const MOST_DIGITS: u8 = 38;

fn decimal(precision: u8, n: i128) -> Result<Value, FaultKind>
    ensures { (scale : _) → result ≡ spec.in_kind (kinds.Decimal precision scale) n }
{
    if n.unsigned_abs() < 10u128.pow(u32::from(precision.min(MOST_DIGITS))) {
        Ok(Value::Dec(n))
    } else {
        Err(FaultKind::Overflow)
    }
}

fn whole(kind: Kind, n: i128) -> Result<Value, FaultKind>
    ensures { result ≡ whole_spec.whole kind modes.Error n }
{
    if i128::from(least(kind)) <= n && n <= i128::from(greatest(kind)) {
        Ok(Value::Int(n as i64))
    } else {
        Err(FaultKind::Overflow)
    }
}

/// The least and the greatest number of a kind of whole numbers.
fn least(kind: Kind) -> i64
    ensures { result ≡ negsuc (2 ^ whole_spec.bits_of kind - 1) }
{
    match kind {
        Kind::I8 => i64::from(i8::MIN),
        Kind::I16 => i64::from(i16::MIN),
        Kind::I32 | Kind::Date => i64::from(i32::MIN),
        _ => i64::MIN,
    }
}

fn greatest(kind: Kind) -> i64
    ensures { result ≡ pos (2 ^ whole_spec.bits_of kind - 1) }
{
    match kind {
        Kind::I8 => i64::from(i8::MAX),
        Kind::I16 => i64::from(i16::MAX),
        Kind::I32 | Kind::Date => i64::from(i32::MAX),
        _ => i64::MAX,
    }
}
