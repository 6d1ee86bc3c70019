// The functions of truth values and of comparison, and what chooses among values.
ghost use Rattle.std.specs.Prelude.{◌≡◌, ◌||◌, true, false, MatchOption};
ghost use Rattle.std.specs.Ordering.{is_eq, is_ne, is_lt, is_le, is_gt, is_ge};
ghost use Rattle.eval_values.specs.Gives.{Gives};
ghost use Rattle.plan_denote.specs.Computed as computed;
ghost use Rattle.plan_denote.specs.Logic as spec;
ghost use Rattle.plan_denote.specs.Order as order_spec;

use crate::error::EvalError;
use crate::order::{compare, is_same};
use std::alloc::Global;
use std::cmp::Ordering;
use sub_types::{FaultKind, Value};

/// Whether a value is null.
pub fn is_null(value: &Value) -> bool
    ensures { result ≡ computed.is_null value.now }
{
    matches!(value, Value::Null)
}

/// Whether a value is the truth value true.
pub fn is_true(value: &Value) -> bool
    ensures { result ≡ computed.is_true value.now }
{
    matches!(value, Value::Bool(true))
}

pub(crate) fn truth(test: bool) -> Result<Value, FaultKind>
    ensures { result ≡ computed.truth test }
{
    Ok(Value::Bool(test))
}

pub(crate) fn not_of(value: &Value) -> Result<Value, FaultKind>
    ensures { result ≡ spec.not_of value.now }
{
    match value {
        Value::Bool(test) => truth(!*test),
        _ => Ok(Value::Null),
    }
}

pub(crate) fn xor_of(a: &Value, b: &Value) -> Result<Value, FaultKind>
    ensures { result ≡ spec.xor_of a.now b.now }
{
    match (a, b) {
        (Value::Bool(a), Value::Bool(b)) => truth(*a != *b),
        _ => Ok(Value::Null),
    }
}

/// The order of two values, unless one is null.
fn known_order(a: &Value, b: &Value) -> Option<Ordering>
    ensures { MatchOption result ((computed.is_null a.now || computed.is_null b.now) ≡ true) (λ ordering. ((computed.is_null a.now || computed.is_null b.now) ≡ false) × (ordering ≡ order_spec.value_cmp a.now b.now)) }
{
    if is_null(a) || is_null(b) {
        None
    } else {
        Some(compare(a, b))
    }
}

pub(crate) fn equal(a: &Value, b: &Value) -> Result<Value, FaultKind>
    ensures { result ≡ spec.compared is_eq a.now b.now }
{
    match known_order(a, b) {
        Some(order) => truth(order.is_eq()),
        None => Ok(Value::Null),
    }
}

pub(crate) fn not_equal(a: &Value, b: &Value) -> Result<Value, FaultKind>
    ensures { result ≡ spec.compared is_ne a.now b.now }
{
    match known_order(a, b) {
        Some(order) => truth(order.is_ne()),
        None => Ok(Value::Null),
    }
}

pub(crate) fn less(a: &Value, b: &Value) -> Result<Value, FaultKind>
    ensures { result ≡ spec.compared is_lt a.now b.now }
{
    match known_order(a, b) {
        Some(order) => truth(order.is_lt()),
        None => Ok(Value::Null),
    }
}

pub(crate) fn at_most(a: &Value, b: &Value) -> Result<Value, FaultKind>
    ensures { result ≡ spec.compared is_le a.now b.now }
{
    match known_order(a, b) {
        Some(order) => truth(order.is_le()),
        None => Ok(Value::Null),
    }
}

pub(crate) fn greater(a: &Value, b: &Value) -> Result<Value, FaultKind>
    ensures { result ≡ spec.compared is_gt a.now b.now }
{
    match known_order(a, b) {
        Some(order) => truth(order.is_gt()),
        None => Ok(Value::Null),
    }
}

pub(crate) fn at_least(a: &Value, b: &Value) -> Result<Value, FaultKind>
    ensures { result ≡ spec.compared is_ge a.now b.now }
{
    match known_order(a, b) {
        Some(order) => truth(order.is_ge()),
        None => Ok(Value::Null),
    }
}

/// Whether a value is at least `low` and at most `high`.
pub(crate) fn between(value: &Value, low: &Value, high: &Value) -> Result<Value, FaultKind>
    ensures { result ≡ spec.between value.now low.now high.now }
{
    if is_null(value) || is_null(low) || is_null(high) {
        Ok(Value::Null)
    } else {
        truth(!compare(value, low).is_lt() && !compare(value, high).is_gt())
    }
}

/// Null where the two are equal, and else the first.
pub(crate) fn nullif(alloc: Global, a: &Value, b: &Value) -> Result<Value, EvalError>
    ensures { Gives result (spec.nullif a.now b.now) }
{
    if !is_null(a) && is_same(a, b) {
        Ok(Value::Null)
    } else {
        Ok(a.copy(alloc)?)
    }
}
