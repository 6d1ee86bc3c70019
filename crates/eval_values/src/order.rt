// The order of values.
ghost use Rattle.std.specs.Prelude.{◌≡◌};
ghost use Rattle.plan_denote.specs.Order as spec;

use std::cmp::Ordering;
use sub_types::Value;

/// The order of two values: null first, and values of one kind by size or by bytes.
pub fn compare(a: &Value, b: &Value) -> Ordering
    ensures { result ≡ spec.value_cmp a.now b.now }
{
    match (a, b) {
        (Value::Bool(a), Value::Bool(b)) => a.cmp(b),
        (Value::Int(a), Value::Int(b)) => a.cmp(b),
        (Value::Dec(a), Value::Dec(b)) => a.cmp(b),
        (Value::Bytes(a), Value::Bytes(b)) => a.bytes().cmp(b.bytes()),
        (a, b) => kind_place(a).cmp(&kind_place(b)),
    }
}

/// Whether two values are equal, where null equals null.
pub fn is_same(a: &Value, b: &Value) -> bool
    ensures { result ≡ spec.is_same a.now b.now }
{
    compare(a, b).is_eq()
}

fn kind_place(value: &Value) -> u8
    ensures { result ≡ spec.kind_place value.now }
{
    match value {
        Value::Null => 0,
        Value::Bool(_) => 1,
        Value::Int(_) => 2,
        Value::Dec(_) => 3,
        Value::Bytes(_) => 4,
    }
}
