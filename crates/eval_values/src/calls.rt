// What a call is worth, by its arguments' values.
ghost use Rattle.std.specs.Prelude.{◌≡◌};
ghost use Rattle.eval_values.specs.Gives.{Gives};
ghost use Rattle.plan_denote.specs.Calls as spec;

use crate::decimals::{added, product, subtracted};
use crate::error::{EvalError, settled};
use crate::logic::{
    at_least, at_most, between, equal, greater, is_null, less, not_equal, not_of, nullif, truth,
    xor_of,
};
use crate::order::is_same;
use crate::patterns::{contains, ends_with, like, starts_with};
use crate::texts::{char_length, concatenated, octet_length, substring};
use crate::whole::{absolute, modulus, negated, quotient};
use plan_typed::{Func, Overflow};
use std::alloc::Global;
use sub_types::{FaultKind, Kind, Value};

/// A function of all its arguments' values: `kind` is its result's, `given` are the arguments'. `and`, `or` and
/// `coalesce`, which don't read all their arguments, are none.
pub fn apply(
    alloc: Global,
    func: Func,
    kind: Kind,
    mode: Overflow,
    given: &[Kind],
    args: &[Value],
) -> Result<Value, EvalError>
    ensures { Gives result (spec.applied func kind mode given.now args.now) }
{
    match (func, args) {
        (Func::Concat, _) => concatenated(alloc, args),
        (Func::Substring, _) => substring(alloc, args),
        (_, [a]) => settled(unary(func, kind, mode, a)),
        (_, [a, b]) => binary(alloc, func, kind, mode, given, a, b),
        (Func::Between, [value, low, high]) => settled(between(value, low, high)),
        _ => Ok(Value::Null),
    }
}

/// A function of one value.
fn unary(func: Func, kind: Kind, mode: Overflow, a: &Value) -> Result<Value, FaultKind>
    ensures { result ≡ spec.unary func kind mode a.now }
{
    match func {
        Func::Not => not_of(a),
        Func::IsNull => truth(is_null(a)),
        Func::IsNotNull => truth(!is_null(a)),
        Func::Negate => negated(kind, mode, a),
        Func::Abs => absolute(kind, mode, a),
        Func::CharLength => char_length(a),
        Func::OctetLength => octet_length(a),
        _ => Ok(Value::Null),
    }
}

/// A function of two values.
fn binary(
    alloc: Global,
    func: Func,
    kind: Kind,
    mode: Overflow,
    given: &[Kind],
    a: &Value,
    b: &Value,
) -> Result<Value, EvalError>
    ensures { Gives result (spec.binary func kind mode given.now a.now b.now) }
{
    match func {
        Func::Xor => settled(xor_of(a, b)),
        Func::Equal => settled(equal(a, b)),
        Func::NotEqual => settled(not_equal(a, b)),
        Func::Lt => settled(less(a, b)),
        Func::Lte => settled(at_most(a, b)),
        Func::Gt => settled(greater(a, b)),
        Func::Gte => settled(at_least(a, b)),
        Func::IsNotDistinctFrom => settled(truth(is_same(a, b))),
        Func::Nullif => nullif(alloc, a, b),
        Func::Add => settled(added(kind, mode, given, a, b)),
        Func::Subtract => settled(subtracted(kind, mode, given, a, b)),
        Func::Multiply => settled(product(kind, mode, a, b)),
        Func::Divide => settled(quotient(kind, mode, a, b)),
        Func::Modulus => settled(modulus(kind, mode, a, b)),
        Func::StartsWith => settled(starts_with(a, b)),
        Func::EndsWith => settled(ends_with(a, b)),
        Func::Contains => settled(contains(a, b)),
        Func::Like => settled(like(a, b)),
        _ => Ok(Value::Null),
    }
}
