// The numbers of functions and modes, to tell them apart.
ghost use Rattle.std.specs.Prelude.{◌≡◌, pos};
ghost use Rattle.plan_verdict.specs.Same as numbers;

use plan_typed::{Func, Overflow};

pub(crate) fn func_number(func: Func) -> i128
    ensures { result ≡ pos (numbers.func_number func) }
{
    match func {
        Func::And => 0,
        Func::Or => 1,
        Func::Not => 2,
        Func::Xor => 3,
        Func::Equal => 4,
        Func::NotEqual => 5,
        Func::Lt => 6,
        Func::Lte => 7,
        Func::Gt => 8,
        Func::Gte => 9,
        Func::Between => 10,
        Func::IsNull => 11,
        Func::IsNotNull => 12,
        Func::IsNotDistinctFrom => 13,
        Func::Coalesce => 14,
        Func::Nullif => 15,
        Func::Add => 16,
        Func::Subtract => 17,
        Func::Multiply => 18,
        Func::Divide => 19,
        Func::Modulus => 20,
        Func::Negate => 21,
        Func::Abs => 22,
        Func::Sum => 23,
        Func::Avg => 24,
        Func::Min => 25,
        Func::Max => 26,
        Func::Concat => 27,
        Func::Substring => 28,
        Func::StartsWith => 29,
        Func::EndsWith => 30,
        Func::Contains => 31,
        Func::Like => 32,
        Func::CharLength => 33,
        Func::OctetLength => 34,
        Func::Count => 35,
    }
}

pub(crate) fn mode_number(mode: Overflow) -> i128
    ensures { result ≡ pos (numbers.mode_number mode) }
{
    match mode {
        Overflow::Error => 0,
        Overflow::Saturate => 1,
        Overflow::Silent => 2,
    }
}
